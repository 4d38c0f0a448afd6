// A pair of strings of an older dictionary, and a key among the pairs before it.
#![tactic(auto)]

ghost use Rattle.std.specs.Prelude.{◌≡◌, ◌≤◌, length, drop};
ghost use Rattle.old_dictionaries.specs.Pairs.{key_among};
ghost use Rattle.old_dictionaries.specs.View.{PairAt};

// Where the pair at a place of s lies: its key from one place to another, its value from a third to its end.
pub fn pair_at(s: &[u8], at: usize) -> Option<(usize, usize, usize, usize)>
    requires { at ≤ length s.now }
    ensures { PairAt s.now at result }
{
    match old_texts::read_text(&s[at..]) {
        Err(_) => None,
        Ok((a, m)) => {
            let b = at + a;
            let c = b + m;
            match old_texts::read_text(&s[c..]) {
                Err(_) => None,
                Ok((v, n)) => Some((b, c, c + v, c + v + n)),
            }
        }
    }
}

// Whether x is the key of one of n entries from a place of s on.
pub fn has_key(s: &[u8], from: usize, n: u64, x: &[u8]) -> bool
    requires { from ≤ length s.now }
    ensures { result ≡ key_among n x.now (drop from s.now) }
{
    let mut at = from;
    let mut left = n;
    while 0 < left {
        match pair_at(s, at) {
            None => {
                return false;
            }
            Some((b, c, _, e)) => {
                if strings::same(&s[b..c], x) {
                    return true;
                }
                at = e;
                left -= 1;
            }
        }
    }
    false
}
