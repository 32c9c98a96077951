// Numbers in decimal and texts at a place of a buffer.
// stays: (b) a recursion over the digits, the plainer form, takes stack for each digit of a C library's number; what
// the loops count is the number, divided by ten at each turn.
ghost use Rattle.std.specs.Prelude.{◌≡◌, length};
ghost use Rattle.texts.specs.Decimal.{decimal, spaced};
ghost use Rattle.texts.specs.Buffer.{Room, Wrote};

// How many digits n has.
pub fn width(n: u64) -> usize
    ensures { result ≡ length (decimal n) }
{
    let mut left = n;
    let mut k = 1;
    while 10 <= left {
        left = left / 10;
        k += 1;
    }
    k
}

// The number n in decimal at a place of the buffer, its last digit first; the next place.
pub fn number(out: &mut [u8], at: usize, n: u64) -> usize
    requires { Room out.old at (decimal n) }
    ensures { Wrote out.old at (decimal n) result out.new }
{
    let end = at + width(n);
    let mut left = n;
    let mut i = end - 1;
    while 10 <= left {
        out[i] = (left % 10) as u8 + b'0';
        left = left / 10;
        i -= 1;
    }
    out[i] = left as u8 + b'0';
    end
}

// A number and the space after it.
pub fn field(out: &mut [u8], at: usize, n: u64) -> usize
    requires { Room out.old at (spaced n) }
    ensures { Wrote out.old at (spaced n) result out.new }
{
    let end = number(out, at, n);
    out[end] = b' ';
    end + 1
}

// A text at a place of the buffer; the next place.
pub fn say(out: &mut [u8], at: usize, text: &[u8]) -> usize
    requires { Room out.old at text.now }
    ensures { Wrote out.old at text.now result out.new }
{
    let end = at + text.len();
    out[at..end].copy_from_slice(text);
    end
}
