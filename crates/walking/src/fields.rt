// Rows as lists of numbers, in any calendar.
ghost use Rattle.std.specs.Prelude.{◌≡◌, length};
ghost use Rattle.walking.specs.Fields.{bit_of, same_fields};

// Yes is 1 and no is 0: `as u64` with a contract that rows cite.
pub fn bit(yes: bool) -> u64
    ensures { result ≡ bit_of yes }
{
    yes as u64
}

// Whether two rows have the same number at each place. By place and not by `==`, so that the proof sees a field that is left out.
pub fn same_fields(a: &[u64], b: &[u64]) -> bool
    requires { length a.now ≡ length b.now }
    ensures { result ≡ same_fields (length a.now) a.now b.now }
{
    let mut same = true;
    for i in 0..a.len() {
        same = (a[i] == b[i]) & same;
    }
    same
}
