// A text as lines.
ghost use Rattle.std.specs.Prelude.{◌≡◌, ◌<◌, ◌==◌, length, position};
ghost use Rattle.std.specs.Iterator.{YieldsFirstRef, item_count};
ghost use Rattle.lines.specs.Texts.{first_line, after_line, lines_of};

// Where the first line feed of a text stands.
fn first_feed(text: &[u8]) -> Option<usize>
    ensures { result ≡ position (λ b. b == 10) text.now }
{
    text.iter().position(|b| *b == b'\n')
}

// The first line of a text, without its line feed, and what stands after it.
pub fn split_line(text: &[u8]) -> (&[u8], &[u8])
    ensures line { result.0.now ≡ first_line text.now }
    ensures rest { result.1.now ≡ after_line text.now }
    ensures shorter { 0 < length text.now → length result.1.now < length text.now }
{
    match first_feed(text) {
        Some(i) => (&text[..i], &text[i + 1..]),
        None => (text, &[]),
    }
}

// The lines of a text, one after the other. Where nothing stands after the last line feed, there is no line, as `split` would
// have one.
#[derive(Drop)]
pub struct Lines<'a> {
    pub text: &'a [u8],
}

impl<'a> Iterator for Lines<'a> {
    type Item = &'a [u8];

    ghost next_gives = { YieldsFirstRef (λ lines. lines_of lines.text.now) };

    ghost remaining = { item_count (λ lines. lines_of lines.text.now) };

    #[tactic(auto, using(crate::proofs::Feeds::next_line, crate::proofs::Feeds::no_line, crate::proofs::Feeds::fewer_lines))]
    fn next(&mut self) -> Option<&'a [u8]> {
        if self.text.is_empty() {
            return None;
        }
        let (line, rest) = split_line(self.text);
        self.text = rest;
        Some(line)
    }
}
