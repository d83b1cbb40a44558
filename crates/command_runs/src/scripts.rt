//! Scripts that are made of lines, and what is compared of a text.
use std::alloc::Global;
use std::test::Fail;

/// The script of lines with ` / ` between them.
pub(crate) fn script_of(alloc: Global, lines: &str) -> Result<String, Fail> {
    first_lines(alloc, lines, usize::MAX)
}

/// The same of the first lines alone, so many at most.
pub(crate) fn first_lines(alloc: Global, lines: &str, most: usize) -> Result<String, Fail> {
    let mut script = String::new(alloc);
    let mut left = most;
    for line in lines.split(" / ") {
        if left == 0 {
            break;
        }
        left -= 1;
        script.push_str(line)?;
        script.push_str("\n")?;
    }
    Ok(script)
}

/// Whether a line is of a kind: `all`, or `plain`, which tells no packet sent or got, or the first word of
/// the line.
fn is_of(kind: &str, line: &str) -> bool {
    match kind {
        "all" => true,
        "plain" => !line.starts_with("sent ") && !line.starts_with("got "),
        _ => match line.split_once(" ") {
            Some((word, _)) => word == kind,
            None => line == kind,
        },
    }
}

/// The lines of a kind.
pub(crate) fn lines_of(alloc: Global, kind: &str, text: &str) -> Result<String, Fail> {
    let mut kept = String::new(alloc);
    for line in text.lines() {
        if is_of(kind, line) {
            kept.push_str(line)?;
            kept.push_str("\n")?;
        }
    }
    Ok(kept)
}

/// Whether a text is of a form, in which `...` stands for anything.
pub(crate) fn has_form(alloc: Global, text: &str, form: &str) -> Result<bool, Fail> {
    let Some((front, last)) = form.rsplit_once("...") else {
        return Ok(text == form);
    };
    let Some(body) = text.strip_suffix(last) else {
        return Ok(false);
    };
    let mut rest = String::from_str(alloc, body)?;
    for piece in front.split("...") {
        let behind = match rest.as_str().split_once(piece) {
            Some((_, behind)) => String::from_str(alloc, behind)?,
            None => return Ok(false),
        };
        rest = behind;
    }
    Ok(true)
}
