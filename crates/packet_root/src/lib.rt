// A root that is there is read; the packet has its roots read so, an event opens its own.
#![tactic(auto)]

ghost use Rattle.rules.specs.Packet.{read_root};
ghost use Rattle.frame.specs.Framed.{Framed, env_of};
ghost use Rattle.class_layout.specs.Notes.{notes, Prepared};
ghost use Rattle.field_read.specs.Reads.{FieldReads};
ghost use Rattle.event_turns.specs.Roots.{class_of, number_of, RootStands};

use field_read::Field;
use field_read::walk::walk_members;
use frame::Frame;
use listing::Progress;
use numbers::limits::DEPTH_LIMIT;
use rules::Slot;

// The fields of a root, if there is one.
pub fn read_root(
    table: &[u8],
    sizes: &[u16],
    aligns: &[u32],
    uuid: &[u8],
    stream: &[u8],
    frame: Frame,
    root: Option<usize>,
    st: Progress,
    slots: [Slot; 64],
    list: &mut [u64],
) -> Field
    requires root_stands { RootStands table.now root }
    requires prepared { Prepared table.now (notes sizes.now aligns.now) }
    requires framed { Framed stream.now frame st.place }
    ensures { FieldReads
        (read_root (env_of stream.now uuid.now frame) (number_of table.now root)
        (class_of table.now root))
        st slots result list.old list.new }
{
    match root {
        None => Field {
            went: Ok(()),
            used: 0,
            state: st,
            slots,
        },
        Some(at) => walk_members(
            table,
            sizes,
            aligns,
            uuid,
            stream,
            frame,
            at,
            1,
            DEPTH_LIMIT,
            st,
            slots,
            list,
        ),
    }
}
