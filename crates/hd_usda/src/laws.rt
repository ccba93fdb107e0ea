//! Laws of the grammar's definitions.

ghost use Rattle.std.specs.Prelude.{◌≡◌, ℕ, List, Bool, Option, Ok, IsTrue};
ghost use Rattle.hd_lexer.specs.declared.lexer.Kind.TheVariants.{CloseRound, CloseSquare, CloseCurly, Colon, End};
ghost use Rattle.hd_usda.specs.grammar.Value as values;
ghost use Rattle.hd_usda.specs.grammar.Metadata.{entry};
ghost use Rattle.hd_usda.specs.used.Elements.{next_element};
ghost use Rattle.hd_usda.specs.used.Targets.{in_list};
ghost use Rattle.hd_usda.specs.used.Values.{numbers, triples, op_entries};
ghost use Rattle.hd_usda.specs.grammar.Header as header;
ghost use Rattle.hd_usda.specs.grammar.Attribute.{next_sample};
ghost use Rattle.hd_usda.specs.grammar.Prims.{LayerBuilder, PrimForm, item, prim, root_item};
ghost use Rattle.hd_path.specs.Paths.{Path};
ghost use Rattle.hd_lexer.specs.Lexing.{tokens_from};
ghost use Rattle.hd_layer.specs.declared.spec.Property.{Property};
ghost use Rattle.hd_usda.specs.Statement.{on_one_line, reads_property};
ghost use Rattle.hd_usda.specs.Laws.{PastRepeats, AllRepeats, ChainRepeats, item_values, values_of, has_equals, property_values, as_values};

/// Wherever the profile repeats a form, the repetition is that of its grammar: the number of rounds that bounds its
/// definition never runs out.
pub fn repetition_never_runs_out()
    ensures key_words { ChainRepeats Colon values.next_word }
    ensures tuples { (level : ℕ) → PastRepeats CloseRound (values.next_of_tuple (values.value level)) }
    ensures lists { (level : ℕ) → PastRepeats CloseSquare (values.next_of_list (values.value level)) }
    ensures dictionaries { (level : ℕ) → PastRepeats CloseCurly (values.entry_of_dict (values.value level)) }
    ensures entries { PastRepeats CloseRound entry }
    ensures numbers { AllRepeats CloseSquare (next_element numbers) }
    ensures triples { AllRepeats CloseSquare (next_element triples) }
    ensures op_entries { AllRepeats CloseSquare (next_element op_entries) }
    ensures targets { AllRepeats CloseSquare (next_element in_list) }
    ensures name_words { ChainRepeats Colon header.next_word }
    ensures samples { PastRepeats CloseCurly next_sample }
    ensures items { (room : ℕ) (path : Path) (counts : Bool) → AllRepeats CloseCurly (item (prim room path) counts) }
    ensures prims { AllRepeats End root_item }
{}

/// One property reads the same in a script and in a prim: where the text of a script spells a property, the same text
/// is one item of a prim, and the prim has that property and no other; where the property is not used, the prim has
/// none.
pub fn property_of_script_is_item()
    ensures { (text : List ℕ) (property : Option Property) → reads_property text ≡ Ok property → (form : PrimForm) (builder : LayerBuilder) → item_values form builder (tokens_from 1 text) ≡ Ok (values_of property) }
{}

/// A script and a prim have one grammar of properties, but that a script needs a value: what a script spells has `=`
/// after its name, and wherever `=` is there, a script and a prim read the same property or have the same fault.
pub fn script_reads_properties_with_values()
    ensures has_value { (text : List ℕ) (property : Option Property) → reads_property text ≡ Ok property → IsTrue (has_equals (tokens_from 1 text)) }
    ensures same { (text : List ℕ) → IsTrue (has_equals (tokens_from 1 text)) → as_values (reads_property text) ≡ on_one_line (property_values (tokens_from 1 text)) }
{}
