// The two parts of a file, read into memory of the caller's.
ghost use Rattle.std.specs.Prelude.{◌≡◌, length};
ghost use Rattle.format.specs.Faults.{body_in, header_in};
ghost use Rattle.reading.specs.Parts.{Receives, parts_answer};

use crate::sections::cut_file;
use format::Lengths;
use refusal::Refusal;

/// Reads header and body of a file without fault into two buffers, and answers how long they are in bytes.
///
/// The tag is not looked at. What stands in a buffer after its part stays as it was. It refuses what `cut_file` refuses (9 to 14), and
/// then a buffer that is shorter than its part (15); where it refuses, both buffers stay as they were.
pub fn read_parts(file: &[u8], header: &mut [u8], body: &mut [u8]) -> Result<Lengths, Refusal>
    ensures answer { result ≡ parts_answer file.now (length header.old) (length body.old) }
    ensures header { Receives result (header_in file.now) header.old header.new }
    ensures body { Receives result (body_in file.now) body.old body.new }
{
    let sections = cut_file(file)?;
    let lengths = sections.lengths;
    if (header.len() as u64) < lengths.header || (body.len() as u64) < lengths.body {
        return Err(Refusal::OutputTooShort);
    }
    sections.header.copy_to(header);
    sections.body.copy_to(body);
    Ok(lengths)
}
