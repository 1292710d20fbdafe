// Listed values are shown as they are, or quoted where a reader could not tell where they end.
ghost use Rattle.std.specs.Prelude.{◌≡◌, ◌+◌, ◌/◌, ◌%◌, ◌<◌, ◌≤◌, [], ◌∷◌, ◌++◌, length, take, drop, MatchOption};
ghost use Rattle.util.specs.Lengths.{exact};
ghost use Rattle.util.specs.Shown.{blank, has_blank, needs_quotes, hex_digit, quote_byte, quoted, shown};
ghost use Rattle.util.specs.Quoting.{quoted_bytes};

// A value that is to be shown in a list.
#[derive(Clone, Copy)]
pub struct Escape<'s>(pub &'s [u8]);

// Whether a byte is a blank.
fn is_blank(b: u8) -> bool
    ensures { result ≡ blank b }
{
    b == b' ' || (b'\t' <= b && b <= b'\r')
}

// Whether a value has a blank.
fn has_blank(value: &[u8]) -> bool
    ensures { result ≡ has_blank value.now }
{
    value.iter().any(|b| is_blank(*b))
}

// A lower-case hexadecimal digit.
fn hex_digit(n: u8) -> u8
    requires { n < 16 }
    ensures { result ≡ hex_digit n }
{
    if n < 10 { b'0' + n } else { b'a' - 10 + n }
}

// The two lower-case hexadecimal digits of a byte.
pub fn hex_digits(b: u8) -> [u8; 2]
    ensures { result ≡ hex_digit (b / 16) ∷ hex_digit (b % 16) ∷ [] }
{
    [hex_digit(b / 16), hex_digit(b % 16)]
}

// A byte as it stands between quotes, by how long that is.
#[derive(Clone, Copy)]
enum Quoted {
    One([u8; 1]),
    Two([u8; 2]),
    Five([u8; 5]),
    Six([u8; 6]),
}

impl Quoted {
    // The bytes, however many they are.
    fn as_bytes(&self) -> &[u8]
        ensures { result.now ≡ quoted_bytes self.now }
    {
        match self {
            Quoted::One(bytes) => bytes,
            Quoted::Two(bytes) => bytes,
            Quoted::Five(bytes) => bytes,
            Quoted::Six(bytes) => bytes,
        }
    }
}

// How a byte stands between quotes.
fn quote_byte(b: u8) -> Quoted
    ensures { quoted_bytes result ≡ quote_byte b }
{
    match b {
        b'"' => Quoted::Two(*b"\\\""),
        b'\\' => Quoted::Two(*b"\\\\"),
        b'\t' => Quoted::Two(*b"\\t"),
        b'\n' => Quoted::Two(*b"\\n"),
        b'\r' => Quoted::Two(*b"\\r"),
        b'\0' => Quoted::Two(*b"\\0"),
        0x01..=0x0f => Quoted::Five([b'\\', b'u', b'{', hex_digit(b), b'}']),
        0x10..=0x1f | 0x7f => {
            let [high, low] = hex_digits(b);
            Quoted::Six([b'\\', b'u', b'{', high, low, b'}'])
        }
        _ => Quoted::One([b]),
    }
}

// How long the value is between quotes, if 64 bits hold that.
fn quoted_len(value: &[u8]) -> Option<usize>
    ensures { result ≡ exact (length (quoted value.now)) }
{
    let mut len: usize = 2;
    for b in value {
        len = len.checked_add(quote_byte(*b).as_bytes().len())?;
    }
    Some(len)
}

// Memory of which the first `len` bytes are written.
// The free rest is not handed on instead: of memory that a loop splits off piece by piece, nothing is proved after the loop.
#[derive(Drop)]
struct Front<'o> {
    out: &'o mut [u8],
    len: usize,
}

impl Front<'_> {
    // Writes the bytes behind those that are written.
    fn put(&mut self, bytes: &[u8])
        requires { self.old.len + length bytes.now ≤ length self.old.out.now }
        ensures same_reference { self.new.out.ghost_name ≡ self.old.out.ghost_name }
        ensures len { self.new.len ≡ self.old.len + length bytes.now }
        ensures size { length self.new.out.now ≡ length self.old.out.now }
        ensures written { take self.new.len self.new.out.now ≡ take self.old.len self.old.out.now ++ bytes.now }
        ensures free { drop self.new.len self.new.out.now ≡ drop self.new.len self.old.out.now }
    {
        let end = self.len + bytes.len();
        let out = &mut *self.out;
        out[self.len..end].copy_from_slice(bytes);
        self.len = end;
    }
}

// Writes the value between quotes to the front of `out`.
fn quote(value: &[u8], out: &mut [u8])
    requires { length (quoted value.now) ≤ length out.old }
    ensures { out.new ≡ quoted value.now ++ drop (length (quoted value.now)) out.old }
{
    let mut front = Front { out, len: 0 };
    front.put(b"\"");
    for b in value {
        front.put(quote_byte(*b).as_bytes());
    }
    front.put(b"\"");
}

impl<'s> Escape<'s> {
    // Whether the value is shown between quotes.
    pub fn needs_escaping(&self) -> bool
        ensures { result ≡ needs_quotes self.now.0.now }
    {
        self.0.is_empty() || has_blank(self.0)
    }

    // How long the value is as it is shown, if 64 bits hold that.
    pub fn shown_len(&self) -> Option<usize>
        ensures { result ≡ exact (length (shown self.now.0.now)) }
    {
        if self.needs_escaping() {
            quoted_len(self.0)
        } else {
            Some(self.0.len())
        }
    }

    // Writes the value as it is shown to the front of `out`, and tells its length; none where it does not fit.
    pub fn write_shown(&self, out: &mut [u8]) -> Option<usize>
        ensures { MatchOption result
            ((length out.old < length (shown self.now.0.now)) × (out.new ≡ out.old))
            (λ n. (n ≡ length (shown self.now.0.now)) × (out.new ≡ shown self.now.0.now ++ drop n out.old)) }
    {
        let len = self.shown_len()?;
        if len > out.len() {
            return None;
        }
        if self.needs_escaping() {
            quote(self.0, out);
        } else {
            out[..len].copy_from_slice(self.0);
        }
        Some(len)
    }
}
