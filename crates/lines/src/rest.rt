// What is left of a line while it is read: fields are cut from its front.
ghost use Rattle.std.specs.Prelude.{◌≡◌, ◌+◌, ◌^◌, ◌<◌, ◌≤◌, ◌&&◌, length, take, drop, if◌then◌else◌, Some, None, Ok, Err, ◌==◌, nat_le, slice_index};
ghost use Rattle.grammar.specs.Grammar.{name_byte};
ghost use Rattle.grammar.specs.Reading.{name_run, number_run, digit_run, value_after, digit, followed as after-digit, name_field, number_field, ended};

// The part of a line that is still to be read, and the place where it begins, counted from 1.
#[derive(Clone, Copy)]
pub struct Rest<'a> {
    pub bytes: &'a [u8],
    pub place: usize,
    // no place of the line is too large to be counted
    ghost counted: { place + length bytes.now < 2 ^ 64 },
}

impl<'a> Rest<'a> {
    ghost use Rattle.lines.specs.Rests.{read_as, seen, name_cut, number_cut};

    // What follows one space, or the place of another byte.
    fn after_space(self) -> Result<Rest<'a>, usize>
        ensures { read_as seen result ≡ (if slice_index self.entry.bytes.now 0 == 32
            then Ok (drop 1 self.entry.bytes.now, self.entry.place + 1)
            else Err self.entry.place) }
    {
        match self.bytes {
            [b' ', bytes @ ..] => Ok(Rest {
                bytes,
                place: self.place + 1,
            }),
            _ => Err(self.place),
        }
    }

    // The first n bytes, a field, and what follows them; no field is empty.
    fn cut(self, n: usize) -> Result<(&'a [u8], Rest<'a>), usize>
        requires { n ≤ length self.bytes.now }
        ensures { read_as name_cut result ≡ (if n == 0
            then Err self.entry.place
            else Ok (take n self.entry.bytes.now, drop n self.entry.bytes.now, self.entry.place + n)) }
    {
        if n == 0 {
            return Err(self.place);
        }
        let (field, bytes) = self.bytes.split_at(n);
        Ok((
            field,
            Rest {
                bytes,
                place: self.place + n,
            },
        ))
    }

    // A space, and the longest name after it.
    pub fn name(self) -> Result<(&'a [u8], Rest<'a>), usize>
        ensures { read_as name_cut result ≡ name_field self.entry.bytes.now self.entry.place }
    {
        let text = self.after_space()?;
        text.cut(name_len(text.bytes, 16))
    }

    // A space, and the longest number after it.
    pub fn number(self) -> Result<(u8, Rest<'a>), usize>
        ensures { read_as number_cut result ≡ number_field self.entry.bytes.now self.entry.place }
    {
        let text = self.after_space()?;
        let (value, len) = leading_number(text.bytes);
        let (_, rest) = text.cut(len)?;
        Ok((value, rest))
    }

    // Nothing more may follow.
    pub fn end(self) -> Result<(), usize>
        ensures { result ≡ ended tt self.entry.bytes.now self.entry.place }
    {
        if !self.bytes.is_empty() {
            return Err(self.place);
        }
        Ok(())
    }
}

fn is_name_byte(b: u8) -> bool
    ensures { result ≡ name_byte b }
{
    matches!(b, b'a'..=b'z' | b'0'..=b'9' | b'-')
}

// How many bytes at the start of the text are a name's, at most so many.
fn name_len(text: &[u8], most: usize) -> usize
    ensures is { result ≡ name_run most text.now }
    ensures within { result ≤ length text.now }
{
    text.iter()
        .take(most)
        .take_while(|b| is_name_byte(**b))
        .count()
}

// The number with a digit after it, if it stays at most 255.
fn followed(n: u8, b: u8) -> Option<u8>
    ensures { result ≡ (if digit b && nat_le (after-digit n b) 255 then Some (after-digit n b) else None) }
{
    let b'0'..=b'9' = b else {
        return None;
    };
    n.checked_mul(10)?.checked_add(b - b'0')
}

// The number that the longest run of digits at the start of the text makes, so that it stays at most 255, and how many they are.
fn leading_digits(text: &[u8]) -> (u8, usize)
    ensures within { result.1 ≤ length text.now }
    ensures len { result.1 ≡ digit_run 0 text.now }
    ensures value { result.0 ≡ value_after 0 (take result.1 text.now) }
{
    let mut value = 0;
    for (n, b) in text.iter().enumerate() {
        let Some(more) = followed(value, *b) else {
            return (value, n);
        };
        value = more;
    }
    (value, text.len())
}

// The longest number from 0 to 255 at the start of the text, and how many bytes it has. Nothing follows a leading zero.
fn leading_number(text: &[u8]) -> (u8, usize)
    ensures within { result.1 ≤ length text.now }
    ensures len { result.1 ≡ number_run text.now }
    ensures value { result.0 ≡ value_after 0 (take result.1 text.now) }
{
    if let [b'0', ..] = text {
        return (0, 1);
    }
    leading_digits(text)
}
