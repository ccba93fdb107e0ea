//! The groups of values that change together.

ghost use Rattle.std.specs.Prelude.{◌≡◌, ◌++◌, [], ◌∷◌, IfOk, OnOk};
ghost use Rattle.hd_tokens.specs.Tables.{texts};
ghost use Rattle.hd_value.specs.Groups.{locator_of_group, locators_before_flattening};

use crate::locator::Locator;
use hd_tokens::locators;
use std::alloc::{AllocError, Global};

/// A group of values of a prim that change together. Each is under the locator that is named beside it.
#[derive(Clone, Copy, Debug, PartialEq, Eq)]
pub enum Group {
    /// `primvars/points`
    Points,

    /// `mesh`
    Topology,

    /// `primvars/color`
    Color,

    /// `xform`
    Transform,

    /// `visibility`
    Visibility,

    /// `purpose`
    Purpose,

    /// `binding`
    Binding,

    /// `instancedBy`
    Instancer,

    /// `instancer`
    Instances,

    /// `material`
    MaterialColor,
}

impl Group {
    /// The locator under which the values of the group are.
    pub fn locator(self, alloc: Global) -> Result<Locator, AllocError>
        ensures { IfOk result (λ locator. locator ≡ locator_of_group self) }
    {
        Locator::fixed(alloc, self.tokens())
    }

    /// The locators under which the values of the group are before flattening: a color is authored in either of two
    /// forms.
    pub fn locators_before_flattening(self, alloc: Global) -> Result<Vec<Locator>, AllocError>
        ensures { IfOk result (λ authored. authored.items ≡ locators_before_flattening self) }
    {
        let mut authored = Vec::with_capacity(alloc, 2)?;
        if self == Group::Color {
            push(&mut authored, alloc, locators::COLOR8)?;
            push(&mut authored, alloc, locators::DISPLAY_COLOR)?;
        } else {
            push(&mut authored, alloc, self.tokens())?;
        }
        Ok(authored)
    }

    /// The tokens of the locator.
    pub fn tokens(self) -> &'static [&'static str]
        ensures { texts result.now ≡ locator_of_group self }
    {
        match self {
            Group::Points => locators::POINTS,
            Group::Topology => locators::MESH,
            Group::Color => locators::COLOR,
            Group::Transform => locators::XFORM,
            Group::Visibility => locators::VISIBILITY,
            Group::Purpose => locators::PURPOSE,
            Group::Binding => locators::BINDING,
            Group::Instancer => locators::INSTANCED_BY,
            Group::Instances => locators::INSTANCER,
            Group::MaterialColor => locators::MATERIAL,
        }
    }
}

/// Adds the locator of these tokens at the end.
fn push(
    locators: &mut Vec<Locator>,
    alloc: Global,
    tokens: &'static [&'static str],
) -> Result<(), AllocError>
    ensures { OnOk result (locators.new.items ≡ locators.old.items ++ texts tokens.now ∷ []) }
{
    locators.push(Locator::fixed(alloc, tokens)?)?;
    Ok(())
}
