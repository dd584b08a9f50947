ghost use Rattle.std.specs.Prelude.{◌≡◌, ℕ, ◌<◌, ◌≤◌, ◌∷◌, Bool, length, not};
ghost use Rattle.std.specs.List.{position_or_len};
ghost use Rattle.std.specs.Iterator.{YieldsFirstRef, item_count};
ghost use Rattle.fc_text.specs.Line.{is_blank, is_line_end, parts_of, tokens_between};
ghost use Rattle.fc_text.specs.inner.Line.{SplitsToken};

/// The lines of a text, each without the LF that ends it.
#[derive(Debug, Drop)]
pub(crate) struct Lines<'a> {
    pub rest: &'a [u8],
}

impl<'a> Iterator for Lines<'a> {
    type Item = &'a [u8];

    ghost next_gives = { YieldsFirstRef (λ s. parts_of is_line_end s.rest.now) };

    ghost remaining = { item_count (λ s. parts_of is_line_end s.rest.now) };

    fn next(&mut self) -> Option<&'a [u8]> {
        if self.rest.is_empty() {
            return None;
        }
        let (line, rest) = split_line(self.rest);
        self.rest = rest;
        Some(line)
    }
}

/// Which bytes part the tokens of a text.
pub trait Gaps {
    ghost gap: { ℕ → Bool };

    /// Whether the byte parts tokens.
    fn is_gap(&self, byte: u8) -> bool
        ensures value { result ≡ gap byte };
}

/// The gaps in a line of a board text: spaces and tabs.
#[derive(Debug, Drop)]
pub struct Blanks;

impl Gaps for Blanks {
    ghost gap = { is_blank };

    fn is_gap(&self, byte: u8) -> bool {
        byte == b' ' || byte == b'\t'
    }
}

/// The tokens of a text: what stands between gaps.
#[derive(Debug, Drop)]
pub struct Tokens<'a, G> {
    /// What follows the tokens so far.
    pub rest: &'a [u8],
    /// Which bytes are gaps.
    pub gaps: G,
}

impl<'a, G> Tokens<'a, G> {
    /// The tokens of the text, parted by these gaps.
    pub fn new(text: &'a [u8], gaps: G) -> Tokens<'a, G>
        ensures rest { result.rest.now ≡ text.now }
    {
        Tokens { rest: text, gaps }
    }
}

impl<'a, G: Gaps + Drop> Iterator for Tokens<'a, G> {
    type Item = &'a [u8];

    ghost next_gives = { YieldsFirstRef (λ s. tokens_between G.gap s.rest.now) };

    ghost remaining = { item_count (λ s. tokens_between G.gap s.rest.now) };

    fn next(&mut self) -> Option<&'a [u8]> {
        let (token, rest) = split_token(self.rest, &self.gaps);
        self.rest = rest;
        if token.is_empty() { None } else { Some(token) }
    }
}

// The first line of a text that isn't empty, and the text behind the LF that ends it.
fn split_line(text: &[u8]) -> (&[u8], &[u8])
    requires some { 0 < length text.now }
    ensures { parts_of is_line_end text.now ≡ result.0.now ∷ parts_of is_line_end result.1.now }
{
    let (line, rest) = text.split_at(line_len(text));
    match rest {
        [_, rest @ ..] => (line, rest),
        [] => (line, rest),
    }
}

// The first token of a text and what follows it; an empty token where there is none.
fn split_token<'a, G: Gaps>(text: &'a [u8], gaps: &G) -> (&'a [u8], &'a [u8])
    ensures { SplitsToken G.gap text.now result.0.now result.1.now }
{
    let text = &text[gap_len(text, gaps)..];
    text.split_at(token_len(text, gaps))
}

// How many gaps the text begins with.
pub(crate) fn gap_len<G: Gaps>(text: &[u8], gaps: &G) -> usize
    ensures value { result ≡ position_or_len (λ b. not (G.gap b)) text.now }
    ensures within { result ≤ length text.now }
{
    for (i, byte) in text.iter().enumerate() {
        if !gaps.is_gap(*byte) {
            return i;
        }
    }
    text.len()
}

// How many bytes the text begins with that are no gaps.
fn token_len<G: Gaps>(text: &[u8], gaps: &G) -> usize
    ensures value { result ≡ position_or_len G.gap text.now }
    ensures within { result ≤ length text.now }
{
    for (i, byte) in text.iter().enumerate() {
        if gaps.is_gap(*byte) {
            return i;
        }
    }
    text.len()
}

// How many bytes stand before the first LF.
fn line_len(text: &[u8]) -> usize
    ensures value { result ≡ position_or_len is_line_end text.now }
    ensures within { result ≤ length text.now }
{
    for (i, byte) in text.iter().enumerate() {
        if *byte == b'\n' {
            return i;
        }
    }
    text.len()
}
