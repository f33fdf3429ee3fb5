// Octets: bytes copied from one lent slice to another, and two slices compared.
//
// Both are total: a copy takes as many bytes as both slices have, and slices of different lengths are
// not the same.
#![tactic(auto)]

ghost use Rattle.std.specs.Prelude.{◌≡◌, ◌++◌, length, min, take, drop};
ghost use Rattle.lists.specs.Least.{same as same_list};

// Copies bytes to the start of a buffer, as many as there are and as it takes, and says how many. The
// bytes after them stay.
pub fn copy(from: &[u8], to: &mut [u8]) -> usize
    ensures count { result ≡ min (length from.now) (length to.old) }
    ensures bytes { to.new ≡ take result from.now ++ drop result to.old }
{
    let n = from.len().min(to.len());
    to[..n].copy_from_slice(&from[..n]);
    n
}

// Whether two slices have the same bytes.
pub fn same(a: &[u8], b: &[u8]) -> bool
    ensures { result ≡ same_list a.now b.now }
{
    a == b
}
