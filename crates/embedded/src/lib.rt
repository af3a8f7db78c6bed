// The address that a dialled string embeds.
#![tactic(auto)]

ghost use Rattle.std.specs.Prelude.{◌≡◌, true, ◌≤◌, ◌<◌, length, get_or, [], ◌∷◌};
ghost use Rattle.embedded.specs.Embedded.{digit, all_digits, number_from, coded, skipped, writes_address, dialled, embedded};

#[tactic(auto, unfolding(crate::specs::Embedded::digit))]
fn digit(c: u8) -> bool
    ensures { result ≡ digit c }
{
    c.is_ascii_digit()
}

#[tactic(auto, unfolding(crate::specs::Embedded::all_digits))]
fn all_digits(s: &[u8]) -> bool
    ensures { result ≡ all_digits s.now }
{
    s.iter().all(|c| digit(*c))
}

// The number with one digit more.
fn with_digit(n: u32, c: u8) -> u32
    requires { (n < 100000000) × (digit c ≡ true) }
    ensures { result ≡ number_from n (c ∷ []) }
{
    n * 10 + u32::from(c - 48)
}

// The number that at most nine digits write.
fn number(s: &[u8]) -> u32
    requires { (length s.now ≤ 9) × (all_digits s.now ≡ true) }
    ensures { result ≡ number_from 0 s.now }
{
    let mut n = 0;
    for c in s {
        n = with_digit(n, *c);
    }
    n
}

// Whether a string begins with a feature code: * and two digits.
#[tactic(auto, using(crate::proofs::Digits::no_code), unfolding(crate::specs::Embedded::coded))]
fn coded(s: &[u8]) -> bool
    ensures { result ≡ coded s.now }
{
    if s.len() < 3 {
        return false;
    }
    s[0] == b'*' && digit(s[1]) && digit(s[2])
}

// How many bytes its feature code has.
#[tactic(auto, unfolding(crate::specs::Embedded::skipped))]
fn skipped(s: &[u8]) -> usize
    ensures { result ≡ skipped s.now }
{
    if coded(s) { 3 } else { 0 }
}

// The address that 1 to 9 digits write.
#[tactic(auto, unfolding(crate::specs::Embedded::writes_address))]
pub fn written(s: &[u8]) -> Option<u32>
    ensures { result ≡ dialled (writes_address s.now) (number_from 0 s.now) }
{
    if s.is_empty() || 9 < s.len() || !all_digits(s) {
        return None;
    }
    let a = number(s);
    (a != 0).then_some(a)
}

// The address that any bytes embed.
pub fn embedded_in(s: &[u8]) -> Option<u32>
    ensures { result ≡ embedded s.now }
{
    written(&s[skipped(s)..])
}
