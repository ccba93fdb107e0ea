//! A session over a stack of layers.

ghost use Rattle.std.specs.Prelude.{◌≡◌, ◌<◌, ◌≤◌, [], true, false, All, IfOk, OnOk, IfErr, OnErr, IsTrue, vec_len};
ghost use Rattle.hd_layer.specs.WellFormed.{is_layer};
ghost use Rattle.hd_script.specs.WellFormed.{is_command};
ghost use Rattle.hd_rprim.specs.PrimRows.{rows_of};
ghost use Rattle.hd_attributes.specs.Rows.{index};
ghost use Rattle.hd_session.specs.Answers.{Does, Refuses};
ghost use Rattle.hd_session.specs.declared.refusal.Refusal.TheVariants.{Script};
ghost use Rattle.hd_session.specs.declared.refusal.ScriptWhy.TheVariants.{NoLayer};
ghost use Rattle.hd_session.specs.States.{opening_state};
ghost use Rattle.hd_session.specs.Steps.{step, finish};

use crate::acts::{commit, dump};
use crate::refusal::{Refusal, ScriptWhy};
use hd_attributes::rows_are_of_attributes;
use hd_index::RenderIndex;
use hd_io::{Rack, Sink};
use hd_layer::LayerSpec;
use hd_script::Command;
use hd_stack::Stack;
use hd_sync::Syncer;
use std::alloc::{AllocError, Global};
use std::marker::Model;
use std::snapshot::Snapshot;

/// Layers that a script edits and commits, and the index of those that it committed last. After a refusal a session is spent.
#[derive(Drop)]
pub struct Session<Y: Syncer + Drop> {
    stack: Stack,
    /// The rows of the layers that were committed last.
    index: RenderIndex,
    /// For contracts alone: the stack when it was committed last.
    committed: Snapshot<Stack>,
    syncer: Y,
    /// The number of the layer that edits change.
    current: usize,
    commits: u64,
    is_spent: bool,
}

impl<Y: Syncer + Drop> Model for Session<Y> {
    ghost use Rattle.hd_session.specs.States.{Session, session_code, IsKept};

    ghost Value = { Session };

    ghost coded = { session_code };

    ghost view = { λ s. record {
      state = record { layers = s.stack.layers; committed = s.committed.value.layers; current = s.current; commits = s.commits };
      is_spent = s.is_spent;
    } };

    ghost invariant = { λ s. IsKept s.stack.layers s.committed.value.layers s.current s.index };
}

impl<Y: Syncer + Drop> Session<Y> {
    /// A session over layers that were read, from one to eight, of which the first is the strongest. They are committed, and
    /// edits change the strongest until another is chosen. The syncer reads the rows of each commit. The call fails only when
    /// memory runs out.
    pub fn open(alloc: Global, layers: Vec<LayerSpec>, syncer: Y) -> Result<Session<Y>, AllocError>
        requires some { 1 ≤ vec_len layers }
        requires few { vec_len layers ≤ 8 }
        requires formed { All (λ layer. IsTrue (is_layer layer)) layers.items }
        ensures { IfOk result (λ session. session ≡ record { state = opening_state layers.items; is_spent = false }) }
    {
        let mut syncer = syncer;
        let mut stack = Stack::new(alloc, layers)?;
        let committed = Snapshot::of(&stack);
        let index = index_of(alloc, &mut stack, &mut syncer)?;
        Ok(Session {
            stack,
            index,
            committed,
            syncer,
            current: 0,
            commits: 0,
            is_spent: false,
        })
    }

    /// Does a command. A layer is chosen by its number from 0, an edit changes the chosen layer, a commit writes its line, and
    /// a dump writes the index of the layers that were committed last to a file, and then its line.
    ///
    /// # Errors
    ///
    /// The refusal of the command in the state that it meets, or a fault of the rack or the sink, or out of memory. The
    /// session is spent then.
    pub fn command<K: Rack, O: Sink>(
        &mut self,
        alloc: Global,
        command: &Command,
        rack: &mut K,
        out: &mut O,
    ) -> Result<(), Refusal>
        requires unspent { self.old.is_spent ≡ false }
        requires formed { IsTrue (is_command command.now) }
        ensures done { OnOk result (Does (step self.old.state command.now []) self.new.state
            (record { rack = K.state rack.old; sink = O.state out.old })
            (record { rack = K.state rack.new; sink = O.state out.new })) }
        ensures unspent { OnOk result (self.new.is_spent ≡ false) }
        ensures refusal { IfErr result (Refuses (step self.old.state command.now [])
            (record { rack = K.state rack.old; sink = O.state out.old })
            (record { rack = K.state rack.new; sink = O.state out.new })) }
        ensures spent { OnErr result (self.new.is_spent ≡ true) }
    {
        self.is_spent = true;
        match command {
            Command::Layer(number) => self.current = layer_number(self.stack.layers(), *number)?,
            Command::Edit(edit) => self.stack.edit(alloc, self.current, edit)?,
            Command::Commit => {
                let committed = Snapshot::of(&self.stack);
                let index = index_of(alloc, &mut self.stack, &mut self.syncer)?;
                self.index = index;
                self.committed = committed;
                commit(alloc, &mut self.commits, &self.index, out)?;
            }
            Command::Dump(name) => dump(alloc, &self.index, name.text(), rack, out)?,
            Command::Report
            | Command::Start { .. }
            | Command::Tiles(_)
            | Command::Pause
            | Command::Resume
            | Command::Stop
            | Command::Wait => return Err(Refusal::Script(ScriptWhy::Later)),
        }
        self.is_spent = false;
        Ok(())
    }

    /// Does what the end of the script asks for: nothing, where no frame runs.
    ///
    /// # Errors
    ///
    /// None yet, since no frame runs.
    pub fn finish<K: Rack, O: Sink>(&mut self, rack: &mut K, out: &mut O) -> Result<(), Refusal>
        requires unspent { self.old.is_spent ≡ false }
        ensures done { OnOk result (Does (finish self.old.state []) self.new.state
            (record { rack = K.state rack.old; sink = O.state out.old })
            (record { rack = K.state rack.new; sink = O.state out.new })) }
        ensures unspent { OnOk result (self.new.is_spent ≡ false) }
        ensures refusal { IfErr result (Refuses (finish self.old.state [])
            (record { rack = K.state rack.old; sink = O.state out.old })
            (record { rack = K.state rack.new; sink = O.state out.new })) }
        ensures spent { OnErr result (self.new.is_spent ≡ true) }
    {
        Ok(())
    }
}

/// An index of the rows of a stack.
fn index_of<Y: Syncer>(
    alloc: Global,
    stack: &mut Stack,
    syncer: &mut Y,
) -> Result<RenderIndex, AllocError>
    ensures rows { IfOk result (λ shown. rows_of shown ≡ index stack.old.layers) }
    ensures same_layers { stack.new.layers ≡ stack.old.layers }
{
    // At most eight sound layers, which have few enough prims, and whose attributes give the rows of their scene.
    stack.is_in_step();
    rows_are_of_attributes();
    let _ = stack.layers();
    let mut index = RenderIndex::new(alloc)?;
    index.populate(alloc, stack, syncer)?;
    Ok(index)
}

/// The layer of this number among so many, counted from 0.
fn layer_number(count: usize, number: u32) -> Result<usize, Refusal>
    ensures found { IfOk result (λ layer. layer ≡ number) }
    ensures there { OnOk result (number < count) }
    ensures refusal { IfErr result (λ why. why ≡ Script NoLayer) }
    ensures missing { OnErr result (count ≤ number) }
{
    let layer = number as usize;
    if layer < count {
        Ok(layer)
    } else {
        Err(Refusal::Script(ScriptWhy::NoLayer))
    }
}
