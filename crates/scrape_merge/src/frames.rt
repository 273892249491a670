//! The memory of a merge.
ghost use Rattle.std.specs.Prelude.{◌≡◌, [], IfOk};
ghost use Rattle.std.specs.Arc.{arc_value};
ghost use Rattle.scrape_merge.specs.Held.{frame_of, IsEmpty};
ghost use Rattle.scrape_merge.specs.Frames.{IsFrameFor};

use expo_text::{ChildScrape, FamilyScrape};
use metric_desc::Desc;
use metric_names::NoMemory;
use std::alloc::Global;
use std::marker::Model;
use std::sync::Arc;

/// A family of a merge: its descriptor, which is shared, and the children that were merged into it; whether one family at most is
/// merged into it; and whether its children stand in strict order.
#[derive(Drop)]
pub(crate) struct Frame {
    pub(crate) desc: Arc<Desc>,
    pub(crate) children: Vec<ChildScrape>,
    pub(crate) single: bool,
    pub(crate) ordered: bool,
}

impl Frame {
    /// A family without children. Its descriptor is shared.
    ///
    /// Refusal 6 [`NoMemory`], and no other.
    fn new(alloc: Global, desc: &Arc<Desc>, room: Option<usize>) -> Result<Frame, NoMemory>
        ensures frame { IfOk result (λ frame. IsFrameFor (arc_value desc.now) room (frame_of frame)) }
        ensures empty { IfOk result IsEmpty }
    {
        let desc = Arc::try_clone(desc)?;
        let children = match room {
            Some(room) => Vec::with_capacity(alloc, room)?,
            None => Vec::new(alloc),
        };
        Ok(Frame {
            desc,
            children,
            single: room.is_none(),
            ordered: true,
        })
    }
}

/// The memory of a merge, taken before it: its families, in the order of the text, with room for their children, and room for a
/// vector.
///
/// Contracts see it as a `FramesView`.
#[derive(Drop)]
pub struct Frames {
    pub(crate) vector: Vec<u64>,
    pub(crate) families: Vec<Frame>,
    pub(crate) shown: Vec<FamilyScrape>,
}

impl Model for Frames {
    ghost use Rattle.std.specs.Prelude.{map};
    ghost use Rattle.std.specs.Vec.{vec_capacity};
    ghost use Rattle.scrape_merge.specs.Frames.{FramesView};

    ghost Value = { FramesView };

    ghost use Rattle.scrape_merge.specs.Held.{frame_of, IsReady};

    ghost view = { λ f. record { numbers = vec_capacity f.vector; families = map frame_of f.families.items } };

    ghost invariant = { λ f. IsReady f.vector f.families f.shown };
}

impl Frames {
    ghost use Rattle.std.specs.Prelude.{◌≤◌, OnOk, OnErr};
    ghost use Rattle.scrape_merge.specs.Frames.{IsPushed};

    /// Memory for so many families, which are pushed later, and for a vector of so many numbers.
    ///
    /// # Errors
    ///
    /// [`NoMemory`], 6.
    pub fn new(alloc: Global, families: usize, numbers: usize) -> Result<Frames, NoMemory>
        ensures none { IfOk result (λ frames. frames.families ≡ []) }
        ensures numbers { IfOk result (λ frames. numbers ≤ frames.numbers) }
    {
        let vector = Vec::with_capacity(alloc, numbers)?;
        let shown = Vec::with_capacity(alloc, families)?;
        let families = Vec::with_capacity(alloc, families)?;
        Ok(Frames {
            vector,
            families,
            shown,
        })
    }

    /// One family more, behind the others. Its descriptor is shared. `room`: for how many children there is room; `None`: one
    /// family at most is merged into it, whose children are taken as they are, and no room is made. The memory that
    /// [`Frames::new`] took for families is used first.
    ///
    /// # Errors
    ///
    /// [`NoMemory`], 6: nothing has changed.
    pub fn push(&mut self, desc: &Arc<Desc>, room: Option<usize>) -> Result<(), NoMemory>
        ensures pushed { OnOk result (IsPushed (arc_value desc.now) room self.old self.new) }
        ensures unchanged { OnErr result (self.new ≡ self.old) }
    {
        let alloc = *self.families.allocator();
        let frame = Frame::new(alloc, desc, room)?;
        self.shown.reserve(self.families.len() + 1)?;
        self.families.push(frame)?;
        Ok(())
    }
}
