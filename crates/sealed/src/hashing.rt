// A whole job on an engine that is moved in and handed back.
ghost use Rattle.std.specs.Prelude.{◌≡◌, ◌≤◌, length};
ghost use Rattle.message.specs.Limits.{header_limit, body_limit};
ghost use Rattle.message.specs.Hash.{tag_of};
ghost use Rattle.reading.specs.Sections.{section_bytes};
ghost use Rattle.tag.specs.Tags.{HashesMessage};

use crate::feeding::feed_part;
use engine::Engine;
use job::{Closed, HeaderJob};
use message::Pad;
use reading::Section;

// The parts of a file, each from the blocks of its own: the data of a part go to one job, across the edges of the file's blocks.
pub(crate) fn hash_sections<E: Engine>(
    engine: E,
    pad: Pad,
    header: Section,
    body: Section,
) -> Closed<E>
    requires short { length (section_bytes header) ≤ header_limit }
    requires few { length (section_bytes body) ≤ body_limit }
    ensures ran { HashesMessage E.Engine engine
        (section_bytes header.entry) (section_bytes body.entry) result.engine }
    ensures tag { result.digest.tag ≡ tag_of (E.subkey_of engine) pad
        (section_bytes header.entry) (section_bytes body.entry) }
{
    let mut job = HeaderJob::start(engine);
    feed_part(&mut job, header);
    let mut job = job.turn();
    feed_part(&mut job, body);
    job.close(pad)
}
