//! An input of two lines, at once and by a window, and an output of two parts.
use fy_lines::{NextLine, Window, first_line, read_limited, split_at_newline, write_parts};
use std::test::Fail;

#[test]
fn lines_are_split_and_parts_written(rt: HostRuntime) -> Result<(), Fail> {
    let mut text: &[u8] = b"one\nlast";
    let bytes = read_limited(rt.alloc(), &mut text, 8)?;
    assert_eq!(rt; bytes.len(), 8);
    let (one, rest) = first_line(&bytes);
    assert_eq!(rt; (one, rest), (&b"one"[..], &b"last"[..]));
    assert_eq!(rt; split_at_newline(rest), None);
    let mut out = Vec::new(rt.alloc());
    write_parts(&mut out, &[one, b"\n"])?;
    assert_eq!(rt; out.as_slice(), b"one\n".as_slice());
    Ok(())
}

#[test]
fn a_window_moves_over_an_input(rt: HostRuntime) -> Result<(), Fail> {
    let mut text: &[u8] = b"one\nlast";
    let mut window = Window::make(rt.alloc())?;
    let NextLine::Whole(count) = window.find_line(&mut text, 5, 8)? else {
        return Err(Fail::from("no line"));
    };
    prove!(count <= 5);
    assert_eq!(rt; &window.held()[..count], &b"one"[..]);
    window.drop_front(count + 1);
    window.drain(&mut text, 8)?;
    assert!(rt; window.held().is_empty() && text.is_empty());
    Ok(())
}
