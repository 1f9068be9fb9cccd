ghost use Rattle.std.specs.Prelude.{◌≡◌, map, string_bytes};
ghost use Rattle.sbe.specs.Pages.{named_page, page_of};

/// What `--help` prints.
const HELP: &str = "sbe: FIX Simple Binary Encoding on the command line

Usage:
  sbe check SCHEMA
  sbe check SCHEMA MAP
  sbe compat OLD NEW
  sbe dump SCHEMA [OPTION VALUE]..
  sbe build SCHEMA [OPTION VALUE]..
  sbe fixcheck MAP [OPTION VALUE]..
  sbe tofix SCHEMA MAP [OPTION VALUE]..
  sbe tosbe SCHEMA MAP [OPTION VALUE]..
  sbe selftest SCHEMA SEED COUNT [OPTION VALUE]..
  sbe regrade FROM TO [OPTION VALUE]..
  sbe rawframe MAP [OPTION VALUE]..
  sbe --help | -h
  sbe --version

check validates a message schema, and prints a line of JSON for each of its messages. With a mapping it
prints a second line after each: whether the mapping covers the message, or the first part that it
doesn't cover.
compat prints whether a reader of OLD and a reader of NEW understand each other's messages: both ways,
one way (NEW reads those of OLD), or not, with the first difference.
dump reads SBE frames from standard input, and prints each message as a line of JSON.
build reads such lines from standard input, and writes each message as an SBE frame.
fixcheck reads frames of FIX tag-value texts from standard input, and prints a line of JSON for each
text: its number, its type, and how many fields it has.
tofix reads SBE frames from standard input, and writes the text of each message in a frame of its own:
its head, and the fields that the mapping gives its parts.
tosbe reads such texts too, and writes the message of each as an SBE frame of the schema, or notes the
first field that can't be translated.
selftest draws COUNT messages of a schema (1 to 10000) from SEED (0 to 18446744073709551615), encodes
each in a frame of its own, and decodes its body with one byte altered. It prints a line of JSON: how
many frames these are, how many messages were skipped because a frame has no room for them or a count
or a length isn't admitted, the frames' bytes and their sum, and how many altered bodies still are
messages. The same arguments give the same line.
regrade reads SBE frames of the schema FROM from standard input, and writes each message as a frame of
TO, another version of it: parts that TO lacks are left out, and parts that the message lacks get an
empty value. A line on standard error then says how many frames were written, and how many parts were
left out of these and filled in.
rawframe reads FIX tag-value messages that follow one another without frames, and writes each as a
frame; it notes and skips all other bytes.
SCHEMA, OLD, NEW, FROM and TO are files of message schemas, MAP is a mapping file: a FIX Orchestra repository.
Their names don't begin with `--`.

Options of dump, build, fixcheck, tofix, tosbe, selftest, regrade and rawframe, last and in any order:
  --also SCHEMA      one more schema, for dump and tofix; a frame is read by the one whose id it
                     has (at most 15 times; dump then prints the schema of a message)
  --max-frame BYTES  the most bytes of a frame, its head included
                     (64 to 16777216, default 65536; at most once)
  --max-input BYTES  the most bytes of the input, not for selftest
                     (1 to 1099511627776, default 4294967296; at most once)
  --begin TEXT       what a text begins with, for tofix (BeginString, default FIX.4.4)
  --sender TEXT      SenderCompID, for tofix (no field without the option; the same for the next three)
  --target TEXT      TargetCompID, for tofix
  --seq NUMBER       MsgSeqNum of the first text, for tofix (1 to 4000000000; each text has the next)
  --time TEXT        SendingTime of each text, for tofix
                     (these texts have 1 to 64 printable ASCII bytes; each option at most once)

Answers go to standard output, each before the program waits for the next frame or line. Why a run
ends early is noted on standard error, as a line of JSON; and so is why build refuses a line,
fixcheck, tofix, tosbe or regrade a frame, and rawframe some bytes.

Exit status:
   0  the files are in order; the input, if any, was read to its end, and nothing was refused
   1  the input was read to its end, and at least one message was refused; or NEW doesn't extend OLD
   2  the arguments are no command
   3  a schema was refused
   4  a mapping was refused
   5  the input isn't a sequence of whole frames, or a frame or line is longer than its limit
   6  a file could not be read
   7  standard input could not be read
   8  standard output or standard error could not be written
   9  out of memory
  10  the input is longer than its limit
  11  a file is absent

Examples:
  sbe check feed.json
  sbe check orders.json orders-map.json
  sbe compat feed.json feed2.json
  sbe dump feed.json < frames.bin
  sbe dump feed.json --also orders.json < frames.bin
  sbe build feed.json < lines.jsonl > frames.bin
  sbe fixcheck orders-map.json < texts.bin
  sbe rawframe orders-map.json < messages.log | sbe fixcheck orders-map.json
  sbe tofix orders.json orders-map.json --sender FIRM --target EXCH --seq 1 < frames.bin > texts.bin
  sbe tosbe orders.json orders-map.json < texts.bin > frames.bin
  sbe selftest orders.json 1 10000
  sbe regrade feed.json feed2.json < frames.bin > frames2.bin
";

/// What `--version` prints.
const VERSION: &str = "sbe 0.1.0
FIX Simple Binary Encoding 1.0
FIX Simple Open Framing Header 1.0
";

/// A text about the program itself.
#[derive(Clone, Copy, Debug, PartialEq, Eq)]
pub enum Page {
    Help,
    Version,
}

impl Page {
    /// The text, in whole lines.
    pub fn text(&self) -> &'static str {
        match self {
            Page::Help => HELP,
            Page::Version => VERSION,
        }
    }
}

/// The page that the arguments ask for, if they are just one of `--help`, `-h` and `--version`.
#[tactic(auto, using(crate::proofs::OneWord::one_word, crate::proofs::OneWord::no_one_word))]
pub fn page_of(words: &[String]) -> Option<Page>
    ensures { result ≡ page_of (map (λ word. string_bytes word) words.now) }
{
    let [word] = words else {
        return None;
    };
    named_page(word.as_str())
}

fn named_page(word: &str) -> Option<Page>
    ensures { result ≡ named_page word.now }
{
    if word == "--help" || word == "-h" {
        return Some(Page::Help);
    }
    if word == "--version" {
        return Some(Page::Version);
    }
    None
}
