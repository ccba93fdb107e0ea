//! Prims, their properties, and prims below them.

ghost use Rattle.std.specs.Prelude.{◌≡◌, ◌≤◌, ◌<◌, ◌+◌, ◌∷◌, ◌++◌, [], length, IsAscii, OnOk, IfOk, IfErr};
ghost use Rattle.hd_layer.specs.declared.fault.LayerFault.TheVariants.{NoMemory};
ghost use Rattle.hd_lexer.specs.declared.lexer.Kind.TheVariants.{CloseCurly, End};
ghost use Rattle.hd_layer.specs.declared.limits.Which.TheVariants.{Depth};
ghost use Rattle.std.specs.FinSet.{empty};
ghost use Rattle.hd_path.specs.Names.{IsName};
ghost use Rattle.hd_usda.specs.reading.Cursor.{count, Gives};
ghost use Rattle.hd_layer.specs.Limits.{limit_of};
ghost use Rattle.hd_usda.specs.reading.Loops.{all};
ghost use Rattle.hd_usda.specs.grammar.Kept.{no_properties};
ghost use Rattle.hd_usda.specs.grammar.Prims.{is_prim, prim_type, is_name, next_count, prim_name, prim_header, with_prim, property_item, item, body, prim, root_item, layer_of, layer};
ghost use Rattle.hd_usda.specs.declared.grammar.prims.LayerBuilder.{LayerBuilder};
ghost use Rattle.hd_usda.specs.inner.PropertyViews.{properties_view};
ghost use Rattle.hd_usda.specs.inner.PrimViews.{builder_view, scope_view, named_view, prim_header_view};

use crate::grammar::kept::PrimProperties;
use crate::grammar::metadata::metadata;
use crate::grammar::name_set::{NameSet, new_name};
use crate::grammar::property::property;
use crate::grammar::rule::rule_of;
use crate::reading::cursor::Cursor;
use crate::reading::text::{as_text, as_token, no_memory};
use crate::reading::words::is_long;
use hd_layer::{LayerFault, LayerSpec, LayerWhy, PrimSpec, Property, Which};
use hd_lexer::Kind;
use hd_num::List;
use hd_path::Path;
use hd_tokens::is_identifier;
use std::alloc::{AllocError, Global};
use std::collections::BTreeMap;

/// The prims that ended so far, by their paths, and the number of those that began.
#[derive(Drop)]
pub struct LayerBuilder {
    pub prims: BTreeMap<Path, PrimSpec>,
    pub count: u64,
}

/// What is in a prim so far.
#[derive(Drop)]
pub struct PrimScope {
    pub names: NameSet,
    pub body: PrimProperties,
}

/// A name, and the number of all prims with this one.
#[derive(Clone, Copy)]
pub struct Named<'a> {
    pub name: &'a [u8],
    pub count: u64,
}

/// What is before the items of a prim.
#[derive(Clone, Copy)]
pub struct PrimHeader<'a> {
    pub kind: &'a [u8],
    pub named: Named<'a>,
}

impl PrimScope {
    fn new(alloc: Global) -> PrimScope
        ensures names { result.names ≡ empty }
        ensures body { properties_view result.body ≡ no_properties }
    {
        PrimScope {
            names: NameSet::new(alloc),
            body: PrimProperties::new(alloc),
        }
    }
}

#[tactic(auto, unfolding(crate::specs::grammar::Prims::is_prim))]
fn is_prim(cursor: &Cursor) -> bool
    ensures { result ≡ is_prim cursor.now }
{
    cursor.is_word(b"def") || cursor.is_word(b"over") || cursor.is_word(b"class")
}

/// Reads the type of a prim, which may be missing.
#[tactic(auto, unfolding(crate::specs::grammar::Prims::prim_type))]
fn prim_type<'a>(cursor: &mut Cursor<'a>) -> Result<&'a [u8], LayerFault>
    ensures gives { Gives (λ kind. (kind.now, cursor.new)) result (prim_type cursor.old) }
    ensures ascii { IfOk result (λ kind. IsAscii kind.now) }
    ensures fewer { OnOk result (count cursor.new ≤ count cursor.old) }
{
    if !cursor.is(Kind::Word) {
        return Ok(&[]);
    }
    let kind = cursor.text();
    if is_long(kind) {
        return Err(cursor.fault(LayerWhy::Limit(Which::Name)));
    }
    cursor.passes(Kind::Word);
    Ok(kind)
}

#[tactic(auto, unfolding(crate::specs::grammar::Prims::is_name))]
fn is_name(cursor: &Cursor) -> bool
    ensures { result ≡ is_name cursor.now }
{
    cursor.is(Kind::Text) && is_identifier(cursor.text())
}

/// The number of prims with one more, which counts or not.
fn next_count(counts: bool, line: u32, before: u64) -> Result<u64, LayerFault>
    ensures { Gives (λ n. n) result (next_count counts line before) }
{
    if !counts {
        return Ok(before);
    }
    if before >= Which::Prims.number() {
        return Err(LayerFault::At {
            line,
            why: LayerWhy::Limit(Which::Prims),
        });
    }
    Ok(before + 1)
}

/// Reads a name, where so many may be below each other.
#[tactic(auto, unfolding(crate::specs::grammar::Prims::prim_name, crate::specs::grammar::Prims::is_name))]
fn prim_name<'a>(
    alloc: Global,
    cursor: &mut Cursor<'a>,
    room: u64,
    counts: bool,
    before: u64,
    names: &mut NameSet,
) -> Result<Named<'a>, LayerFault>
    ensures gives { Gives (λ named. (named_view named names.new, cursor.new)) result (prim_name room counts before names.old cursor.old) }
    ensures name { IfOk result (λ named. IsName named.name.now) }
    ensures fewer { OnOk result (count cursor.new < count cursor.old) }
{
    if !is_name(cursor) {
        return Err(cursor.fault(LayerWhy::Syntax));
    }
    if room == 0 {
        return Err(cursor.fault(LayerWhy::Limit(Which::Depth)));
    }
    let name = cursor.text();
    if is_long(name) {
        return Err(cursor.fault(LayerWhy::Limit(Which::Name)));
    }
    let line = cursor.line();
    let count = next_count(counts, line, before)?;
    let key = Vec::from_slice(alloc, name)?;
    new_name(names, false, key, line)?;
    cursor.passes(Kind::Text);
    Ok(Named { name, count })
}

/// Reads what is between the first word of a prim and its items.
#[tactic(auto, unfolding(crate::specs::grammar::Prims::prim_header))]
fn prim_header<'a>(
    alloc: Global,
    cursor: &mut Cursor<'a>,
    room: u64,
    counts: bool,
    before: u64,
    names: &mut NameSet,
) -> Result<PrimHeader<'a>, LayerFault>
    ensures gives { Gives (λ h. (prim_header_view h names.new, cursor.new)) result (prim_header room counts before names.old cursor.old) }
    ensures kind { IfOk result (λ h. IsAscii h.kind.now) }
    ensures name { IfOk result (λ h. IsName h.named.name.now) }
    ensures fewer { OnOk result (count cursor.new < count cursor.old) }
{
    let kind = prim_type(cursor)?;
    let named = prim_name(alloc, cursor, room, counts, before, names)?;
    metadata(cursor)?;
    cursor.take(Kind::OpenCurly)?;
    Ok(PrimHeader { kind, named })
}

/// The path with one more name.
fn longer(alloc: Global, path: &Path, name: &[u8]) -> Result<Path, LayerFault>
    requires name { IsName name.now }
    requires room { length path.now < limit_of Depth }
    ensures longer { IfOk result (λ own. own ≡ path.now ++ name.now ∷ []) }
    ensures memory { IfErr result (λ fault. fault ≡ NoMemory) }
{
    match path.child(alloc, as_text(name)) {
        Ok(own) => Ok(own),
        Err(fault) => Err(no_memory(fault)),
    }
}

/// The prim of these parts.
fn prim_of(
    alloc: Global,
    path: &Path,
    kind: &[u8],
    values: Vec<Property>,
) -> Result<PrimSpec, LayerFault>
    requires { IsAscii kind.now }
    ensures prim { IfOk result (λ prim. prim ≡ record { path = path.now; kind = kind.now; properties = values.items }) }
    ensures memory { IfErr result (λ fault. fault ≡ NoMemory) }
{
    Ok(PrimSpec {
        path: path.copy()?,
        kind: as_token(alloc, kind)?,
        properties: List::of(alloc, values)?,
    })
}

/// Keeps a prim that ended, or not.
fn keep_prim(
    alloc: Global,
    kept: bool,
    path: Path,
    kind: &[u8],
    values: Vec<Property>,
    builder: &mut LayerBuilder,
) -> Result<(), LayerFault>
    requires { IsAscii kind.now }
    ensures kept { OnOk result (builder_view builder.new ≡ with_prim kept (record { path = path; kind = kind.now; properties = values.items }) (builder_view builder.old)) }
    ensures memory { IfErr result (λ fault. fault ≡ NoMemory) }
{
    if kept {
        let prim = prim_of(alloc, &path, kind, values)?;
        builder.prims.insert(path, prim)?;
    }
    Ok(())
}

/// Reads a property of a prim.
#[tactic(auto, unfolding(crate::specs::grammar::Prims::property_item))]
fn property_item(
    alloc: Global,
    cursor: &mut Cursor,
    counts: bool,
    scope: &mut PrimScope,
) -> Result<(), LayerFault>
    ensures gives { (builder : LayerBuilder) → Gives (λ _. (scope_view scope.new builder, cursor.new)) result (property_item counts (scope_view scope.old builder) cursor.old) }
    ensures fewer { OnOk result (count cursor.new < count cursor.old) }
{
    property(alloc, cursor, rule_of(counts), &mut scope.body)
}

/// Reads an item of a prim.
#[cycle(items)]
#[tactic(auto, unfolding(crate::specs::grammar::Prims::item))]
fn item(
    alloc: Global,
    cursor: &mut Cursor,
    room: u64,
    path: &Path,
    counts: bool,
    scope: &mut PrimScope,
    builder: &mut LayerBuilder,
) -> Result<(), LayerFault>
    requires { length path.now + room ≤ limit_of Depth }
    ensures gives { Gives (λ _. (scope_view scope.new builder.new, cursor.new)) result (item (prim room path.now) counts (scope_view scope.old builder.old) cursor.old) }
    ensures fewer { OnOk result (count cursor.new < count cursor.old) }
{
    if cursor.is_word(b"variantSet") {
        return Err(cursor.fault(LayerWhy::LeftOut));
    }
    if is_prim(cursor) {
        let is_class = cursor.is_word(b"class");
        cursor.next();
        one_prim(
            alloc,
            cursor,
            room,
            path,
            counts && !is_class,
            scope,
            builder,
        )?;
    } else {
        property_item(alloc, cursor, counts, scope)?;
    }
    cursor.passes(Kind::Semicolon);
    Ok(())
}

#[cycle(items)]
#[tactic(auto, using(crate::proofs::Collecting::collecting))]
fn items(
    alloc: Global,
    cursor: &mut Cursor,
    room: u64,
    path: &Path,
    counts: bool,
    scope: &mut PrimScope,
    builder: &mut LayerBuilder,
) -> Result<(), LayerFault>
    requires { length path.now + room ≤ limit_of Depth }
    ensures gives { Gives (λ _. (scope_view scope.new builder.new, cursor.new)) result (all CloseCurly (item (prim room path.now) counts) (scope_view scope.old builder.old) cursor.old) }
    ensures fewer { OnOk result (count cursor.new < count cursor.old) }
{
    'rest: while !cursor.passes(Kind::CloseCurly) {
        item(alloc, cursor, room, path, counts, scope, builder)?;
    }
    Ok(())
}

/// Reads what is in a prim.
#[cycle(items)]
#[tactic(auto, unfolding(crate::specs::grammar::Prims::body))]
fn body(
    alloc: Global,
    cursor: &mut Cursor,
    room: u64,
    path: &Path,
    counts: bool,
    builder: &mut LayerBuilder,
) -> Result<PrimScope, LayerFault>
    requires { length path.now + room ≤ limit_of Depth }
    ensures gives { Gives (λ scope. (scope_view scope builder.new, cursor.new)) result (body (prim room path.now) counts (builder_view builder.old) cursor.old) }
    ensures fewer { OnOk result (count cursor.new < count cursor.old) }
{
    let mut scope = PrimScope::new(alloc);
    items(alloc, cursor, room, path, counts, &mut scope, builder)?;
    Ok(scope)
}

/// Reads a prim after its first word, where so many names may still be below each other.
#[cycle(items)]
#[tactic(auto, unfolding(crate::specs::grammar::Prims::prim))]
fn one_prim(
    alloc: Global,
    cursor: &mut Cursor,
    room: u64,
    path: &Path,
    counts: bool,
    scope: &mut PrimScope,
    builder: &mut LayerBuilder,
) -> Result<(), LayerFault>
    requires { length path.now + room ≤ limit_of Depth }
    ensures gives { Gives (λ _. (scope_view scope.new builder.new, cursor.new)) result (prim room path.now counts (scope_view scope.old builder.old) cursor.old) }
    ensures fewer { OnOk result (count cursor.new < count cursor.old) }
{
    let header = prim_header(alloc, cursor, room, counts, builder.count, &mut scope.names)?;
    // Without room the name is a fault, so that this is not reached.
    if room == 0 {
        return Ok(());
    }
    let own = longer(alloc, path, header.named.name)?;
    builder.count = header.named.count;
    let inner = body(alloc, cursor, room - 1, &own, counts, builder)?;
    let PrimScope { names: _, body } = inner;
    let PrimProperties {
        properties: _,
        values,
    } = body;
    keep_prim(alloc, counts, own, header.kind, values, builder)?;
    Ok(())
}

/// Reads what is at the root.
#[tactic(auto, unfolding(crate::specs::grammar::Prims::root_item))]
fn root_item(
    alloc: Global,
    cursor: &mut Cursor,
    scope: &mut PrimScope,
    builder: &mut LayerBuilder,
) -> Result<(), LayerFault>
    ensures gives { Gives (λ _. (scope_view scope.new builder.new, cursor.new)) result (root_item (scope_view scope.old builder.old) cursor.old) }
    ensures fewer { OnOk result (count cursor.new < count cursor.old) }
{
    if is_prim(cursor) {
        let is_class = cursor.is_word(b"class");
        cursor.next();
        let room = Which::Depth.number();
        one_prim(
            alloc,
            cursor,
            room,
            &Path::root(),
            !is_class,
            scope,
            builder,
        )
    } else if cursor.is_word(b"reorder") {
        Err(cursor.fault(LayerWhy::LeftOut))
    } else {
        Err(cursor.fault(LayerWhy::Syntax))
    }
}

#[tactic(auto, using(crate::proofs::Collecting::collecting))]
fn root_items(
    alloc: Global,
    cursor: &mut Cursor,
    scope: &mut PrimScope,
    builder: &mut LayerBuilder,
) -> Result<(), LayerFault>
    ensures { Gives (λ _. (scope_view scope.new builder.new, cursor.new)) result (all End root_item (scope_view scope.old builder.old) cursor.old) }
{
    'rest: while !cursor.ends() {
        root_item(alloc, cursor, scope, builder)?;
    }
    Ok(())
}

/// The prims that were found, in the order of their paths.
fn layer_of(alloc: Global, builder: LayerBuilder) -> Result<LayerSpec, AllocError>
    ensures { IfOk result (λ layer. layer ≡ layer_of (builder_view builder)) }
{
    let prims: Vec<PrimSpec> = builder.prims.into_values().collect(alloc)?;
    Ok(LayerSpec {
        prims: List::of(alloc, prims)?,
    })
}

/// Reads what is after the header.
#[tactic(auto, unfolding(crate::specs::grammar::Prims::layer))]
pub fn layer(alloc: Global, cursor: &mut Cursor) -> Result<LayerSpec, LayerFault>
    ensures { Gives (λ layer. layer) result (layer cursor.old) }
{
    metadata(cursor)?;
    let mut scope = PrimScope::new(alloc);
    let mut builder = LayerBuilder {
        prims: BTreeMap::new(alloc),
        count: 0,
    };
    root_items(alloc, cursor, &mut scope, &mut builder)?;
    Ok(layer_of(alloc, builder)?)
}
