// A text taken apart at a mark.
ghost use Rattle.std.specs.Prelude.{◌≡◌, ◌∷◌, ◌==◌, [], MatchOption};
ghost use Rattle.std.specs.List.{position, slice_split};

// Where the first mark stands.
fn place_of_first(text: &[u8], mark: u8) -> Option<usize>
    ensures { result ≡ position (λ b. b == mark) text.now }
{
    text.iter().position(|byte| *byte == mark)
}

// What stands before the first mark and what stands behind it, if there is a mark.
pub(crate) fn cut(text: &[u8], mark: u8) -> Option<(&[u8], &[u8])>
    ensures { let parts = slice_split (λ b. b == mark) in
        MatchOption result (parts text.now ≡ text.now ∷ [])
        (λ p. parts text.now ≡ p.0.now ∷ parts p.1.now) }
{
    let at = place_of_first(text, mark)?;
    Some((&text[..at], &text[at + 1..]))
}
