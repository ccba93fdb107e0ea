//! What a prim takes from those above it.

ghost use Rattle.std.specs.Prelude.{◌≡◌, ◌||◌, [], IfOk};
ghost use Rattle.hd_flattening.specs.Flat.{authored_binding, authored_purpose, flat_colors, flat_matrix, is_invisible, is_visible, nearest, own_colors, own_single};
ghost use Rattle.hd_flattening.specs.Local.{begins_with_reset};
ghost use Rattle.hd_flattening.specs.inner.Inheriting.{inherited_from, prim_values, IsFlatOf};

use crate::local::{begins_with_reset, compose, ops_product};
use crate::values::{colors_of, is_set, paths_of, token_of, tokens_of, value_at};
use hd_num::{List, Matrix, Rgb};
use hd_path::{Path, Token};
use hd_scene::Prim;
use hd_tokens::locators;
use hd_value::Container;
use std::alloc::AllocError;

/// What a prim takes from its ancestors.
#[derive(Drop)]
pub(crate) struct Inherited {
    /// Whether there are no ancestors.
    pub is_root: bool,

    /// The matrix of the parent, or `None` where it is out of range.
    pub matrix: Option<Matrix>,

    pub is_visible: bool,

    /// The nearest purpose that is authored.
    pub purpose: Option<Token>,

    /// The nearest binding that is authored.
    pub binding: Option<List<Path>>,

    /// The nearest list of one color.
    pub color: Option<List<Rgb>>,
}

impl Inherited {
    /// What a root prim takes.
    pub fn nothing() -> Inherited
        ensures { result ≡ inherited_from [] }
    {
        Inherited {
            is_root: true,
            matrix: Some(Matrix::identity()),
            is_visible: true,
            purpose: None,
            binding: None,
            color: None,
        }
    }

    /// What the children of a prim take, where the prim itself takes this.
    pub fn for_children(&self, values: &Container) -> Result<Inherited, AllocError>
        ensures { IfOk result (IsFlatOf inherited_from values.now self.now) }
    {
        Ok(Inherited {
            is_root: false,
            matrix: self.matrix(values),
            is_visible: self.is_visible && !is_invisible(values),
            purpose: self.purpose(values)?,
            binding: self.binding(values)?,
            color: self.color(values)?,
        })
    }

    /// The same of what is at a path, where that may be no prim.
    pub fn for_children_of(&self, prim: &Prim) -> Result<Inherited, AllocError>
        ensures { IfOk result (IsFlatOf inherited_from (prim_values prim.now) self.now) }
    {
        match &prim.values {
            Some(values) => self.for_children(values),
            None => self.for_children(&Container::new()),
        }
    }

    fn matrix(&self, values: &Container) -> Option<Matrix>
        ensures { IsFlatOf flat_matrix values.now self.now result }
    {
        let order = tokens_of(value_at(values, locators::XFORM_OP_ORDER));
        let is_root_of_prototype = is_set(value_at(values, locators::XFORM_RESET));
        let local = ops_product(values, order);
        if resets_xform_stack(order, is_root_of_prototype, self.is_root) {
            local
        } else {
            compose(local, self.matrix)
        }
    }

    fn purpose(&self, values: &Container) -> Result<Option<Token>, AllocError>
        ensures { IfOk result (IsFlatOf (nearest authored_purpose) values.now self.now) }
    {
        let own = token_of(value_at(values, locators::PURPOSE));
        match own.or(self.purpose.as_ref()) {
            Some(purpose) => Ok(Some(purpose.copy()?)),
            None => Ok(None),
        }
    }

    fn binding(&self, values: &Container) -> Result<Option<List<Path>>, AllocError>
        ensures { IfOk result (IsFlatOf (nearest authored_binding) values.now self.now) }
    {
        let own = paths_of(value_at(values, locators::BINDING));
        match own.or(self.binding.as_ref()) {
            Some(paths) => Ok(Some(paths.copy()?)),
            None => Ok(None),
        }
    }

    fn color(&self, values: &Container) -> Result<Option<List<Rgb>>, AllocError>
        ensures { IfOk result (IsFlatOf (nearest own_single) values.now self.now) }
    {
        let own = own_colors(values)?;
        if own.len() == 1 {
            return Ok(Some(own));
        }
        match &self.color {
            Some(color) => Ok(Some(color.copy()?)),
            None => Ok(None),
        }
    }

    /// The colors of a prim that takes this: its own, or else the nearest list of one color.
    pub fn colors(&self, values: &Container) -> Result<List<Rgb>, AllocError>
        ensures { IfOk result (IsFlatOf flat_colors values.now self.now) }
    {
        let own = own_colors(values)?;
        if !own.is_empty() {
            return Ok(own);
        }
        match &self.color {
            Some(color) => color.copy(),
            None => Ok(own),
        }
    }
}

/// Whether a prim takes no matrix from above.
fn resets_xform_stack(order: &[Token], is_root_of_prototype: bool, is_root: bool) -> bool
    ensures { result ≡ (begins_with_reset order.now || is_root_of_prototype || is_root) }
{
    begins_with_reset(order) || is_root_of_prototype || is_root
}

fn is_invisible(values: &Container) -> bool
    ensures { result ≡ is_invisible values.now }
{
    match token_of(value_at(values, locators::VISIBILITY)) {
        Some(visibility) => visibility.text() == "invisible",
        None => false,
    }
}

/// The colors of a prim's own, of which those by bytes come before those for display.
fn own_colors(values: &Container) -> Result<List<Rgb>, AllocError>
    ensures { IfOk result (λ colors. colors ≡ own_colors values.now) }
{
    let colors = colors_of(value_at(values, locators::COLOR8))?;
    if colors.is_empty() {
        colors_of(value_at(values, locators::DISPLAY_COLOR))
    } else {
        Ok(colors)
    }
}
