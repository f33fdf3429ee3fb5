// Tables that meet every outcome of set-up once, and look-ups in an accepted one.
//
// Each table is lent as a slice of rows. A line has the refusal's number, or 00.
#![tactic(auto)]

ghost use Rattle.std.specs.Prelude.{◌≤◌};
ghost use Rattle.table.specs.Table.{Column};

use std::io::Print;
use table::Row;

fn row(address: u16) -> Row {
    Row {
        address,
        opened: true,
    }
}

fn changed(rows: [Row; 17], i: usize, address: u16) -> [Row; 17] {
    let mut next = rows;
    if i < 17 {
        next[i] = row(address);
    }
    next
}

// Seventeen rows: '0100', '0000', '0001', '0101', and single ones.
fn plenty() -> [Row; 17] {
    let mut rows = [row(0x0100); 17];
    let mut i = 4;
    while i < 17 {
        rows[i] = row(0x0200 + i as u16);
        i += 1;
    }
    changed(changed(changed(rows, 1, 0x0000), 2, 0x0001), 3, 0x0101)
}

fn say(rt: HostRuntime, number: u8) {
    let line = [48 + number / 10, 48 + number % 10, b'\n'];
    let _ = rt.stdout().write_all(&line);
}

fn say_set_up(rt: HostRuntime, rows: [Row; 17], count: usize) {
    match setup::set_up_own(rows, count) {
        Ok(_) => say(rt, 0),
        Err(refusal) => say(rt, tapa::number(refusal)),
    }
}

fn say_rows_and_shapes(rt: HostRuntime, rows: [Row; 17]) {
    say_set_up(rt, rows, 0);
    say_set_up(rt, rows, 1);
    say_set_up(rt, rows, 16);
    say_set_up(rt, rows, 17);
    say_set_up(rt, changed(rows, 15, 0x0180), 16);
    say_set_up(rt, changed(rows, 15, 0x027F), 16);
    say_set_up(rt, changed(rows, 15, 0x0800), 16);
    say_set_up(rt, changed(rows, 15, 0x0701), 16);
    say_set_up(rt, changed(rows, 15, 0x0700), 16);
}

fn say_repeats_and_multi(rt: HostRuntime, rows: [Row; 17]) {
    say_set_up(rt, changed(rows, 15, 0x0204), 16);
    say_set_up(rt, changed(changed(rows, 0, 0x0204), 15, 0x0701), 16);
    say_set_up(rt, rows, 4);
    let five = changed(rows, 4, 0x0002);
    say_set_up(rt, five, 5);
    say_set_up(rt, changed(five, 15, 0x0205), 16);
}

fn bit(b: bool) -> u8
    ensures { result ≤ 1 }
{
    if b { 1 } else { 0 }
}

fn say_look_ups(rt: HostRuntime, column: [u32; 16], count: usize)
    requires { Column column count }
{
    let mut cells = column;
    say(rt, bit(router_rows::is_listed(&cells, count, 0x0204)));
    say(rt, bit(router_rows::is_listed(&cells, count, 0x0284)));
    say(rt, bit(router_rows::is_open(&cells, count, 0x0204)));
    router_rows::set_open(&mut cells, count, 0x0204, false);
    say(rt, bit(router_rows::is_open(&cells, count, 0x0204)));
    say(rt, bit(router_rows::is_open(&cells, count, 0x0205)));
    say(rt, bit(router_rows::is_listed(&cells, count, 0x0204)));
}

fn main(rt: HostRuntime) {
    let rows = plenty();
    say_rows_and_shapes(rt, rows);
    say_repeats_and_multi(rt, rows);
    if let Ok(table) = setup::set_up_own(rows, 16) {
        let held = table.rows();
        say_look_ups(rt, held.cells(), held.count());
    }
}
