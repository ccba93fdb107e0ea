//! What a line of a script asks for.

ghost use Rattle.std.specs.Prelude.{◌≡◌, IfOk};

use hd_layer::Edit;
use hd_path::{Path, Token};
use std::alloc::AllocError;

/// A command of a script.
#[derive(Drop)]
pub enum Command {
    /// Later edits change the layer with this number, counted from 0.
    Layer(u32),
    /// Changes that layer.
    Edit(Edit),
    /// Commits the scene.
    Commit,
    /// Writes the committed scene to a file of this name.
    Dump(Token),
    /// Tells what the last commit changed.
    Report,
    /// Starts a frame of the committed scene, with a file name and from 1 to 1,024 pixels wide and high, as the
    /// prim at the path sees it or by the usual camera.
    Start {
        name: Token,
        width: u32,
        height: u32,
        camera: Option<Path>,
    },
    /// Draws so many tiles more.
    Tiles(u32),
    /// Holds the frame that runs.
    Pause,
    /// Lets it go on.
    Resume,
    /// Ends it as it is.
    Stop,
    /// Ends it with all its tiles.
    Wait,
}

/// The path, if there is one, which shares what this one holds.
fn copied(path: &Option<Path>) -> Result<Option<Path>, AllocError>
    ensures { IfOk result (λ copied. copied ≡ path.now) }
{
    match path {
        Some(path) => Ok(Some(path.copy()?)),
        None => Ok(None),
    }
}

impl Command {
    /// A command that shares what this one holds.
    pub fn copy(&self) -> Result<Command, AllocError>
        ensures { IfOk result (λ copied. copied ≡ self.now) }
    {
        Ok(match self {
            Command::Layer(number) => Command::Layer(*number),
            Command::Edit(edit) => Command::Edit(edit.copy()?),
            Command::Commit => Command::Commit,
            Command::Dump(name) => Command::Dump(name.copy()?),
            Command::Report => Command::Report,
            Command::Start {
                name,
                width,
                height,
                camera,
            } => Command::Start {
                name: name.copy()?,
                width: *width,
                height: *height,
                camera: copied(camera)?,
            },
            Command::Tiles(count) => Command::Tiles(*count),
            Command::Pause => Command::Pause,
            Command::Resume => Command::Resume,
            Command::Stop => Command::Stop,
            Command::Wait => Command::Wait,
        })
    }
}
