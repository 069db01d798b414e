//! The grammar of paths, and the parts of a path's text.
ghost use Rattle.std.specs.Prelude.{◌≡◌, ◌≤◌, ◌<◌, ◌-◌, length, drop, false, slice_index, IfSome, IsTrue};
ghost use Rattle.std.specs.List.{list_all, position};
ghost use Rattle.cny_base.specs.Path as spec;
ghost use Rattle.cny_base.specs.Path.{has_slash, join};
ghost use Rattle.cny_base.specs.Reserved.{is_reserved, is_pinned};

// Neither a slash nor a control byte.
fn is_plain(byte: u8) -> bool
    ensures { result ≡ spec.is_plain byte }
{
    byte >= 32 && byte != b'/' && byte != 127
}

fn all_plain(part: &[u8]) -> bool
    ensures { result ≡ list_all spec.is_plain part.now }
{
    part.iter().all(|b| is_plain(*b))
}

// `.` or `..`.
fn is_dots(part: &[u8]) -> bool
    ensures { result ≡ spec.is_dots part.now }
{
    match part {
        [a] => *a == b'.',
        [a, b] => *a == b'.' && *b == b'.',
        _ => false,
    }
}

fn has_part_form(part: &[u8]) -> bool
    ensures { result ≡ spec.has_part_form part.now }
{
    let plain = all_plain(part);
    let dots = is_dots(part);
    part.len() >= 1 && part.len() <= 255 && plain && !dots
}

fn is_part(part: &str) -> bool
    ensures { result ≡ spec.is_part part.now }
{
    has_part_form(part.as_bytes())
}

// Where the first slash stands.
fn slash_place(bytes: &[u8]) -> Option<usize>
    ensures place { result ≡ position spec.is_slash bytes.now }
    ensures within { IfSome result (λ at. at < length bytes.now) }
{
    bytes.iter().position(|byte| *byte == b'/')
}

// By bytes, since a slash is never inside a character.
fn are_parts(text: &str) -> bool
    ensures { result ≡ spec.are_parts text.now }
{
    let mut rest = text;
    'parts: loop {
        let Some(at) = slash_place(rest.as_bytes()) else {
            return is_part(rest);
        };
        if !is_part(&rest[..at]) {
            return false;
        }
        rest = &rest[at + 1..];
    }
}

/// Whether the text is that of a path.
pub(crate) fn is_path(text: &str) -> bool
    ensures { result ≡ spec.is_path text.now }
{
    let Some(rest) = text.strip_prefix('/') else {
        return false;
    };
    // 1,024 bytes together with the slash.
    rest.is_empty() || rest.len() <= 1023 && are_parts(rest)
}

/// Whether a path and a last name, joined by a slash, are the text of a path.
#[tactic(auto, using(crate::proofs::Joining::join_root, crate::proofs::Joining::join_below, std::proofs::lemmas::Bool::Decides::nat_tests))]
pub(crate) fn can_join(path: &str, last: &str) -> bool
    requires { IsTrue (spec.is_path path.now) }
    ensures { result ≡ spec.is_path (join path.now last.now) }
{
    let parts = are_parts(last);
    if path.len() == 1 {
        return last.is_empty() || last.len() <= 1023 && parts;
    }
    last.len() <= 1023 && path.len() + last.len() <= 1023 && parts
}

// Where the part after the last slash begins; 0 where there is no slash.
fn name_start(bytes: &[u8]) -> usize
    ensures within { result ≤ length bytes.now }
    ensures no_slash { has_slash (drop result bytes.now) ≡ false }
    ensures slash { 0 < result → slice_index bytes.now (result - 1) ≡ 47 }
{
    let mut at = bytes.len();
    while at > 0 {
        if bytes[at - 1] == b'/' {
            break;
        }
        at -= 1;
    }
    at
}

/// The part of a text after its last slash.
pub fn last_name(text: &str) -> &str
    ensures { result.now ≡ spec.last_name text.now }
{
    let at = name_start(text.as_bytes());
    &text[at..]
}

/// The part of a text before its last slash, and `/` where nothing stands before it.
pub fn parent_of(text: &str) -> &str
    ensures { result.now ≡ spec.parent text.now }
{
    let at = name_start(text.as_bytes());
    if at <= 1 { "/" } else { &text[..at - 1] }
}

/// Whether the path is the private directory or lies below it.
pub(crate) fn is_reserved(path: &str) -> bool
    ensures { result ≡ is_reserved path.now }
{
    path == "/var/lib/conarydb" || path.as_bytes().starts_with(b"/var/lib/conarydb/")
}

/// Whether the path is above the private directory.
pub(crate) fn is_pinned(path: &str) -> bool
    ensures { result ≡ is_pinned path.now }
{
    path == "/" || path == "/var" || path == "/var/lib"
}
