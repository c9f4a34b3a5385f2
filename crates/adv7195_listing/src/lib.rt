// The text of an image of the ADV7195: the settings that it holds, or its refusal.
#![tactic(auto)]

ghost use Rattle.std.specs.Prelude.{◌≡◌, ◌≤◌, length};
ghost use Rattle.text.specs.Line.{place_after, appended};
ghost use Rattle.listing.specs.Lines.{refused_line};
ghost use Rattle.template.specs.Template.{filled};
ghost use Rattle.refusals.specs.Refusal.{number_of};
ghost use Rattle.adv7195_listing.specs.Lines.{template};
ghost use Rattle.adv7195_listing.specs.Listing.{settings_text, text_width};

use adv7195_reading::read;
use adv7195_settings::NUMBERS;
use listing::refused_line;
use refusals::Fault;
use template::fill;
use text::append;

// Room for the text of any image.
pub const TEXT_WIDTH: usize = 2048;

// The lines, a line a field, of this many bytes: number, name, and marks for its settings.
const SIZE: usize = 881;

const LINES: [u8; SIZE] = *b"1 output standard %
2 input control signals %
3 input standard %
5 DV polarity %
7 pixel data enable %
8 input format %
9 test pattern enable %
10 test pattern frame %
11 VBI open %
12 undershoot limiter %
13 sharpness filter %
14 Y delay %
15 colour delay %
16 CGMS enable %
17 CGMS CRC %
18 HDTV enable %
21 DAC A %
22 DAC B %
23 DAC C %
24 interpolation %
26 timing reset %
28 RGB mode %
29 sync on PrPb %
30 colour output swap %
31 gamma curve %
32 gamma correction %
33 adaptive mode %
34 adaptive filter %
35 colour Y %
36 colour Cr %
37 colour Cb %
38 mode register 6 %
39 filter gain A %
40 filter gain B %
41 CGMS data %
42 gamma curve A # # # # # # #
43 gamma curve B # # # # # # #
44 adaptive gain 1 A %
45 adaptive gain 1 B %
46 adaptive gain 2 A %
47 adaptive gain 2 B %
48 adaptive gain 3 A %
49 adaptive gain 3 B %
50 threshold A %
51 threshold B %
52 threshold C %
";

// The template of the lines.
fn lines() -> [u8; SIZE]
    ensures answer { result ≡ template }
{
    LINES
}

// Writes the lines of settings at the front of the memory lent, or nothing where they do not fit.
fn list_settings(out: &mut [u8], numbers: &[i32]) -> Option<usize>
    ensures answer { result ≡ place_after out.old 0 (filled template numbers.now) }
    ensures memory { out.new ≡ appended out.old 0 (filled template numbers.now) }
    ensures most { length (filled template numbers.now) ≤ text_width }
{
    let mut text = [0u8; TEXT_WIDTH];
    let lines = lines();
    let end = fill(&mut text, 0, &lines, numbers, 0);
    append(out, 0, &text[0..end])
}

// Writes the line of a refusal at the front of the memory lent, or nothing where it does not fit.
fn list_refusal(out: &mut [u8], fault: Fault) -> Option<usize>
    ensures answer { result ≡ place_after out.old 0 (refused_line (number_of fault.refusal) fault.field) }
    ensures memory { out.new ≡ appended out.old 0 (refused_line (number_of fault.refusal) fault.field) }
    ensures most { length (refused_line (number_of fault.refusal) fault.field) ≤ text_width }
{
    let line = refused_line(fault.refusal.number(), fault.field);
    let bytes = line.bytes;
    let end = line.length;
    append(out, 0, &bytes[0..end])
}

// Writes the text of an image at the front of the memory lent, or nothing where it does not fit.
pub fn settings_text(image: &[u8], out: &mut [u8]) -> Option<usize>
    ensures answer { result ≡ place_after out.old 0 (settings_text image.now) }
    ensures memory { out.new ≡ appended out.old 0 (settings_text image.now) }
    ensures most { length (settings_text image.now) ≤ text_width }
{
    let mut numbers = [0i32; NUMBERS];
    match read(image, &mut numbers) {
        Ok(()) => list_settings(out, &numbers),
        Err(fault) => list_refusal(out, fault),
    }
}
