ghost use Rattle.std.specs.Prelude.{◌≡◌};
ghost use Rattle.ui_base.specs.Paths as paths;

// An ASCII letter or digit, `_`, `-` or `.`.
fn is_path_byte(byte: u8) -> bool
    ensures { result ≡ paths.is_path_byte byte }
{
    matches!(byte, b'0'..=b'9' | b'A'..=b'Z' | b'a'..=b'z' | b'_' | b'-' | b'.')
}

// Whether all bytes may stand in a segment.
fn has_path_bytes(segment: &[u8]) -> bool
    ensures { result ≡ paths.has_path_bytes segment.now }
{
    segment.iter().all(|byte| is_path_byte(*byte))
}

// The part between two slashes.
fn is_segment(segment: &[u8]) -> bool
    ensures { result ≡ paths.is_segment segment.now }
{
    !segment.is_empty()
        && has_path_bytes(segment)
        && segment != b".".as_slice()
        && segment != b"..".as_slice()
}

// Whether segments, joined by slashes, make up the bytes.
fn has_segments(path: &[u8]) -> bool
    ensures { result ≡ paths.has_segments path.now }
{
    path.split(|byte| *byte == b'/')
        .all(|segment| is_segment(segment))
}

// Whether the bytes are a name that stands for no package of the program.
fn is_reserved(path: &[u8]) -> bool
    ensures { result ≡ paths.is_reserved path.now }
{
    path == b"builtin".as_slice() || path == b"unsafe".as_slice() || path == b"C".as_slice()
}

/// Whether the bytes are a valid package path: one or more segments of ASCII letters, digits, `_`,
/// `-` and `.`, none of them `.` or `..`, joined by `/`; at most 255 bytes; not `builtin`, `unsafe`
/// or `C`.
#[tactic(auto, unfolding(crate::specs::Paths::is_path))]
pub fn is_path(path: &[u8]) -> bool
    ensures { result ≡ paths.is_path path.now }
{
    path.len() <= 255 && !is_reserved(path) && has_segments(path)
}
