// The report on a room file. A file that is refused is reported too: its number stands in the text, and
// 0 is returned. Only a text under 131,072 bytes is refused, with 4, and nothing is written.
ghost use Rattle.std.specs.Prelude.{◌≡◌};
ghost use Rattle.interflect.specs.Reporting.{interflect_room_report};

// Writes what `roomlight` prints of the file to the front of text: length becomes how many bytes it
// is. text has 131,072 bytes or more. The call works on some 1.1 MB of stack.
#[unsafe(no_mangle)]
pub extern "C" fn interflect_room_report(bytes: &[u8], text: &mut [u8], length: &mut usize) -> u32
    ensures { (result, length.new, text.new)
        ≡ interflect_room_report bytes.now length.old text.old }
{
    let answer = report::room_report(bytes, text);
    outs::tell_count(answer, length)
}
