//! Scenes of a layer that is read: the notices of its edits, and how often a stack was asked.

use crate::fixtures::{across, names_below, path};
use crate::notices::push_notices;
use hd_retained::Retained;
use hd_scene::SceneIndex;
use hd_script::{Command, read_line};
use hd_stack::Stack;
use hd_usda::read_layer;
use std::alloc::{AllocError, Global};
use std::test::Fail;

const LAYER: &[u8] =
    b"#usda 1.0\ndef Xform \"T\" { uniform token purpose = \"proxy\" def Mesh \"B\" {} }\ndef \"S\" {}\n";

const EDITS: [&str; 10] = [
    "def Mesh /A",
    "set /T token visibility = \"invisible\"",
    "set /T token visibility = \"invisible\"",
    "set /T double3 xformOp:translate = (1, 0, 0)",
    "set /T string note = \"moved\"",
    "clear /T purpose",
    "clear /T extent",
    "rename /T /A/U",
    "remove /S",
    "remove /X",
];

const NOTICES: &str = "added /A Mesh
dirtied /T visibility
dirtied /T visibility
dirtied /T xform ops translate
dirtied /T purpose
renamed /T /A/U
removed /S
refused
";

/// Does the edit of a line of a script, and adds its notices.
fn push_edit(
    index: &mut Retained,
    alloc: Global,
    line: &str,
    text: &mut String,
) -> Result<(), AllocError> {
    let Ok(Some(Command::Edit(edit))) = read_line(alloc, line.as_bytes()) else {
        return text.push_str("no edit\n");
    };
    match index.edit(alloc, &edit) {
        Ok(notices) => push_notices(alloc, &notices, text),
        Err(_) => text.push_str("refused\n"),
    }
}

/// Whether edits of each form answer their notices. One gives a value again, and two name properties that are not used.
fn are_edits_told(alloc: Global) -> Result<bool, AllocError> {
    let Ok(layer) = read_layer(alloc, LAYER) else {
        return Err(AllocError);
    };
    let mut index = across(Retained::from_layer(alloc, layer)?);
    let mut text = String::new(alloc);
    for line in EDITS {
        push_edit(&mut index, alloc, line, &mut text)?;
    }
    Ok(text.as_str() == NOTICES)
}

#[test]
fn each_edit_answers_its_notices(rt: HostRuntime) -> Result<(), Fail> {
    assert!(rt; are_edits_told(rt.alloc())?);
    Ok(())
}

/// How often a stack of one layer was asked, after one call for a prim and one for its children.
fn pulls_of_one_prim(alloc: Global) -> Result<u64, AllocError> {
    let Ok(layer) = read_layer(alloc, LAYER) else {
        return Err(AllocError);
    };
    let mut stack = Stack::new(alloc, vec![in alloc; layer]?)?;
    let at = path(alloc, "/T/B")?;
    stack.is_in_step();
    let prim = stack.prim(alloc, &at)?;
    let names = names_below(&mut stack, alloc, "/T")?;
    if prim.kind.text() != "Mesh" || names.as_str() != " B" {
        return Ok(0);
    }
    Ok(stack.pulls())
}

#[test]
fn a_stack_counts_the_prims_it_is_asked_for(rt: HostRuntime) -> Result<(), Fail> {
    assert!(rt; pulls_of_one_prim(rt.alloc())? == 1);
    Ok(())
}
