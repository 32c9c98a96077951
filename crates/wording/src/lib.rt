// A text with a number behind it, once and twice.
#![tactic(auto)]

ghost use Rattle.std.specs.Prelude.{◌≡◌, ◌+◌, ◌≤◌, ◌++◌, length};
ghost use Rattle.texts.specs.Decimal.{decimal};

use texts::Line;

pub fn one<const N: usize>(line: &mut Line<N>, text: &[u8], n: u32)
    requires { length line.old + length (text.now ++ decimal n) ≤ N }
    ensures { line.new ≡ line.old ++ (text.now ++ decimal n) }
{
    line.say(text);
    line.number(n as u64);
}

pub fn two<const N: usize>(line: &mut Line<N>, text: &[u8], n: u32, then: &[u8], m: u32)
    requires { length line.old + length (text.now ++ decimal n ++ then.now ++ decimal m) ≤ N }
    ensures { line.new ≡ line.old ++ (text.now ++ decimal n ++ then.now ++ decimal m) }
{
    one(line, text, n);
    one(line, then, m);
}
