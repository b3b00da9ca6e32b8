// A script of a sample, and what was recorded beside it.

// What the Rust answered, and what the copy with a correction did where that is another thing.
#[derive(Clone, Copy)]
pub(crate) enum Expected<'a> {
    None,
    Rust(&'a str),
    Corrected {
        rust: &'a str,
        correction: &'a str,
        corrected: &'a str,
    },
}

#[derive(Clone, Copy)]
pub(crate) struct Recorded<'a> {
    pub(crate) name: &'a str,
    pub(crate) script: &'a str,
    pub(crate) expected: Expected<'a>,
}

fn answers_of(text: &str) -> Expected<'_> {
    let Some((rust, rest)) = text.split_once("%= corrected ") else {
        return Expected::Rust(text);
    };
    match rest.split_once('\n') {
        Some((correction, corrected)) => {
            Expected::Corrected {
                rust,
                correction,
                corrected,
            }
        }
        None => Expected::Rust(text),
    }
}

// Takes apart what stands behind the mark of a script: its name, its lines, and the records.
pub(crate) fn part(text: &str) -> Recorded<'_> {
    let (name, body) = text.split_once('\n').unwrap_or((text, ""));
    match body.split_once("%= the Rust\n") {
        Some((script, answers)) => {
            Recorded {
                name,
                script,
                expected: answers_of(answers),
            }
        }
        None => {
            Recorded {
                name,
                script: body,
                expected: Expected::None,
            }
        }
    }
}
