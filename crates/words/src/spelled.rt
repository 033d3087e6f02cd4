// Reads the numbers and the sets of roles that words spell.
ghost use Rattle.std.specs.Prelude.{◌≡◌};
ghost use Rattle.words.specs.Spelling.{wide, narrow, roles_in, role_set, one_role};

// The number of 64 bits that a word of decimal digits spells. (`parse` would also take a sign.)
pub(crate) fn wide(word: &[u8]) -> Option<u64>
    ensures answer { result ≡ wide word.now }
{
    if word.is_empty() {
        return None;
    }
    let mut value: u64 = 0;
    for byte in word {
        if !byte.is_ascii_digit() {
            return None;
        }
        value = value.checked_mul(10)?.checked_add(u64::from(*byte - b'0'))?;
    }
    Some(value)
}

// A number of 32 bits: a role's code, or a number of a table.
pub(crate) fn narrow(word: &[u8]) -> Option<u32>
    ensures answer { result ≡ narrow word.now }
{
    u32::try_from(wide(word)?).ok()
}

// The set of one role.
fn one_role(word: &[u8]) -> Option<u64>
    ensures answer { result ≡ one_role word.now }
{
    match wide(word)? {
        role @ 0..64 => Some(1 << role),
        _ => None,
    }
}

// The set of the roles between two braces.
fn roles(inner: &[u8]) -> Option<u64>
    ensures answer { result ≡ roles_in inner.now }
{
    if inner.is_empty() {
        return Some(0);
    }
    let mut set = 0;
    for word in inner.split(|byte| *byte == b',') {
        set |= one_role(word)?;
    }
    Some(set)
}

pub(crate) fn role_set(word: &[u8]) -> Option<u64>
    ensures answer { result ≡ role_set word.now }
{
    match word {
        [b'{', inner @ .., b'}'] => roles(inner),
        _ => None,
    }
}
