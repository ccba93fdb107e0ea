//! The words of the command line.

ghost use Rattle.std.specs.Prelude.{◌≡◌, map, string_bytes};
ghost use Rattle.std.specs.Option.{option_map};
ghost use Rattle.hd_app.specs.Commands.{command, draw_of, step_of};
ghost use Rattle.hd_app.specs.inner.CommandWords.{program_seen};

/// What the words of the command line ask for.
#[derive(Clone, Copy, Debug)]
pub enum CommandWords<'a> {
    /// Draws the layer in the file of this name to a picture of that name.
    Draw {
        layer: &'a str,
        out: &'a str,
    },
    /// Runs the script in the file of this name over layers, at least one, of which the first is the strongest.
    Step {
        layers: &'a [String],
        script: &'a str,
    },
}

fn draw_words(words: &[String]) -> Option<CommandWords<'_>>
    ensures { option_map program_seen result ≡ draw_of (map string_bytes words.now) }
{
    match words {
        [layer, out] => Some(CommandWords::Draw {
            layer: layer.as_str(),
            out: out.as_str(),
        }),
        _ => None,
    }
}

fn step_words(words: &[String]) -> Option<CommandWords<'_>>
    ensures { option_map program_seen result ≡ step_of (map string_bytes words.now) }
{
    match words {
        [layers @ .., script] if !layers.is_empty() => Some(CommandWords::Step {
            layers,
            script: script.as_str(),
        }),
        _ => None,
    }
}

/// The command that the words spell, if they spell one.
pub fn command(words: &[String]) -> Option<CommandWords<'_>>
    ensures { option_map program_seen result ≡ command (map string_bytes words.now) }
{
    let [word, words @ ..] = words else {
        return None;
    };
    match word.as_str() {
        "draw" => draw_words(words),
        "step" => step_words(words),
        _ => None,
    }
}
