// What is written into bytes: a text, a number's digits, and a number of four bytes, most significant
// byte first. Each is put over what stands from a place on, and every other byte of the buffer stays.
// The caller has seen that there is room.
#![tactic(auto)]

ghost use Rattle.std.specs.Prelude.{◌≡◌, ◌+◌, ◌≤◌, length};
ghost use Rattle.writing.specs.Writing.{written, numeral, four_of};

// A text; its end.
pub fn text(out: &mut [u8], at: usize, text: &[u8]) -> usize
    requires { at + length text.now ≤ length out.old }
    ensures out_after { out.new ≡ written out.old at text.now }
    ensures value { result ≡ at + length text.now }
{
    let end = at + text.len();
    out[at..end].copy_from_slice(text);
    end
}

// A number's digits, with no 0 in front; their end. There are at most 20.
pub fn numeral(out: &mut [u8], at: usize, n: u64) -> usize
    requires { at + length (numeral n) ≤ length out.old }
    ensures out_after { out.new ≡ written out.old at (numeral n) }
    ensures value { result ≡ at + length (numeral n) }
{
    let mut digits = [0u8; 20];
    let k = io::decimal(n, &mut digits);
    text(out, at, &digits[..k])
}

// A number of four bytes, high byte first. One of 2^32 or more loses what lies above.
pub fn four(out: &mut [u8], at: usize, n: u64)
    requires { at + 4 ≤ length out.old }
    ensures { out.new ≡ written out.old at (four_of n) }
{
    text(out, at, &n.to_be_bytes()[4..]);
}
