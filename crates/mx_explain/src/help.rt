//! How to use the program.

ghost use Rattle.std.specs.Prelude.{◌≡◌};
ghost use Rattle.mx_explain.specs.Usage.{usage, refusal};

/// The words that come before the usage where the words are not accepted.
const BAD_WORDS: &[u8] = b"bad words\n";

const REFUSAL: &[u8] = b"bad words\n\
Usage: show COMMAND < SESSION\n\
\x20 lint             the first bad line of the text, and what is wrong with it\n\
\x20 lines [TURNS]    runs the session, and tells each line of the run in words\n\
\x20 story [TURNS]    runs it, and tells its lines in the order of time\n\
\x20 picture [TURNS]  runs the session, and draws the run as an SVG\n\
\x20 page [TURNS]     the run as one HTML file: drawing, lines, access by entry\n\
\x20 outcomes [TWO]   runs it in every order of its lines: what each line came to\n\
\x20 plain            the text without the lines that begin with #\n\
\x20 breach           of a session with a printed run behind it: legal, or why not\n\
\x20 drill N          the session of drill N, 1 to 6 digits; nothing is read\n\
\x20 help             this text; nothing is read\n\
TURNS: who makes the next line, as 2 1 1 2, and then all in turn; or seed N, an\n\
order that N chooses; without it each process runs on a thread of its own.\n\
TWO: two lines, as 2.12 1.9 (process, line): which outcomes come together.\n\
Example: show lines 2 1 1 2 < FILE\n\
Status: 0 written, 1 out of memory, 2 bad words, 3 input failed,\n\
4 output failed, 5 no session (breach: no session with a run), 6 too many bytes\n";

/// Each command with its line, an example, and what each status means.
#[tactic(auto, unfolding(crate::specs::Usage::usage))]
pub fn usage() -> &'static [u8]
    ensures { result.now ≡ usage }
{
    &REFUSAL[BAD_WORDS.len()..]
}

/// What is told where the words are not accepted: `bad words`, and how to use the program.
#[tactic(auto, unfolding(crate::specs::Usage::usage))]
pub fn refusal() -> &'static [u8]
    ensures { result.now ≡ refusal }
{
    REFUSAL
}
