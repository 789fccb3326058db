ghost use Rattle.plain_text.specs.Lines.{line_feeds};
ghost use Rattle.std.specs.Prelude.{◌≡◌, ◌≤◌, length};

/// How many LF bytes a text has.
pub fn line_feeds(text: &[u8]) -> usize
    ensures count { result ≡ line_feeds text.now }
    ensures within { result ≤ length text.now }
{
    text.iter().filter(|byte| **byte == b'\n').count()
}
