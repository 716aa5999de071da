//! What the program says about itself.

ghost use Rattle.std.specs.Prelude.{◌≡◌};
ghost use Rattle.radix.specs.Informing.{information_of};

/// What the program says about itself.
#[derive(Clone, Copy, Debug, PartialEq, Eq)]
pub enum Information {
    /// How it is used.
    Help,
    /// Its version.
    Version,
}

/// What the words ask about the program, if that is all that they ask.
pub fn information_asked(words: &[String]) -> Option<Information>
    ensures { result ≡ information_of words.now }
{
    match words {
        [word] => {
            if word.as_str() == "--help" {
                return Some(Information::Help);
            }
            if word.as_str() == "--version" {
                return Some(Information::Version);
            }
            None
        }
        _ => None,
    }
}

/// The text of it, whose last line ends.
pub fn text_of(information: Information) -> &'static str {
    match information {
        Information::Help => HELP,
        Information::Version => "radix 0.1.0\n",
    }
}

/// How the program is used.
pub const HELP: &str = "\
radix: a 64-bit Power ISA 3.0B machine, with an assembler and a lister of its programs.

usage: radix run IMAGE SCHEDULE N [--guest FILE@HEX].. [--trace] [--walks]
       radix asm SOURCE
       radix dis IMAGE
       radix --help | --version

  run        runs a program, and prints a report of the run
  asm        assembles a source, and writes the program's file to the standard output
  dis        prints a program's words as instructions, each as the assembler reads it

  IMAGE      the file of the program: a little-endian ELF-64 executable for Power
  SCHEDULE   the file that says which thread makes each step: the three lines
             'threads 1', '0' and 'repeat'
  N          how many steps to make, 0 to 1048576 in decimal
  SOURCE     the file of the source: at most 65536 lines

  --guest    load FILE as it is at the address HEX, 1 to 16 hexadecimal digits; at most four times
  --trace    print each step, each change of RAM and each access of a device
  --walks    print each table word that a translation read, and each entry that it left
  --help     print this text
  --version  print the version

Each file has at most 64 MiB. The machine has one thread, 16 MiB of RAM, a console at address
10000000, a control device at 10001000 and an empty tape at 10002000. docs/FORMATS.md describes the
files and the report, docs/ASSEMBLER.md sources, docs/MACHINE.md the machine.

exit status:
   0  all steps were made, or the text was     10  the image or a guest has no place in RAM
      written                                  11  the output could not be written
   2  not a command of this version            12  out of memory
   3  a file could not be read                 13  the machine stopped
   4  a file is longer than 64 MiB             14  the journal has no room for a step
   5  not an image                             16  a device cannot be plugged
   6  not a schedule that this version reads
   7  the source is wrong
";
