//! The laws of words, operands, options and script lines, as functions with empty bodies whose contracts are the theorems.

ghost use Rattle.std.specs.Prelude.{◌≡◌, ◌⊎◌, ◌<◌, ℕ, ℤ, true, false, List, Some, None, Ok, Err};
ghost use Rattle.mq_text.specs.Quoting.{quoted};
ghost use Rattle.mq_scn_lines.specs.declared.fault.LineFault.{LineFault};
ghost use Rattle.mq_scn_lines.specs.declared.fault.LineFault.TheVariants.{Form, Name, Number};
ghost use Rattle.mq_scn_lines.specs.declared.options.LineOption.{LineOption};
ghost use Rattle.mq_scn_lines.specs.Faults.{rank};
ghost use Rattle.mq_scn_lines.specs.Words.{is_open, words_of, first_word};
ghost use Rattle.mq_scn_lines.specs.Numbers.{ranged, signed_number};
ghost use Rattle.mq_scn_lines.specs.Operands.{bracketed, label_in, name_in, name_or_blank_in};
ghost use Rattle.mq_scn_lines.specs.Texts.{text_in, field_in};
ghost use Rattle.mq_scn_lines.specs.Options.{has_value, are_options, says, value_of};
ghost use Rattle.mq_scn_grammar.specs.Words.{AreBlanks, AreWords, IsFirstWord};
ghost use Rattle.mq_sc_parse.specs.declared.command.Command.{Command};
ghost use Rattle.mq_scn_script.specs.Commands.{command_in};
ghost use Rattle.mq_scn_grammar.specs.Commands.{IsOneCommand, HasCommandFault};
ghost use Rattle.mq_calls.specs.declared.answers.Open.{Open};
ghost use Rattle.mq_scn_script.specs.Bodies.{body_in};
ghost use Rattle.mq_scn_script.specs.Options.{open_options, put_options, get_options};
ghost use Rattle.mq_history.specs.declared.scripts.Body.{Body};
ghost use Rattle.mq_history.specs.declared.scripts.PutOptions.{PutOptions};
ghost use Rattle.mq_history.specs.declared.scripts.GetOptions.{GetOptions};
ghost use Rattle.mq_history.specs.declared.scripts.ScriptLine.{ScriptLine};
ghost use Rattle.mq_scn_script.specs.Lines.{script_line};
ghost use Rattle.mq_scn_grammar.specs.Faults.{IsMissed, IsTold};
ghost use Rattle.mq_scn_grammar.specs.Operands.{IsBracketed, IsLabelWord, IsNameWord, IsNameOrBlank, IsField, IsNumber, IsSigned, HasNumberFault};
ghost use Rattle.mq_scn_grammar.specs.Bodies.{IsBodyWord, HasBodyFault};
ghost use Rattle.mq_scn_grammar.specs.ScriptLines.{IsScriptLine, IsScriptFault};
ghost use Rattle.mq_scn_grammar.specs.LineOptions.{AreOpenOptions, HasOpenFault, ArePutOptions, HasPutFault, AreGetOptions, HasGetFault};
ghost use Rattle.mq_scn_grammar.specs.Options.{AreOptions, Says, HasValue};

/// A text whose quotes are closed is the words that its reader answers, and no others.
pub fn words_are_those_of_the_text()
    ensures found { (text : List ℕ) (words : List (List ℕ)) → is_open false text ≡ false → words_of text ≡ words → AreWords words text }
    ensures read { (text : List ℕ) (words : List (List ℕ)) → AreWords words text → (is_open false text ≡ false) × (words_of text ≡ words) }
    ensures one_list { (text : List ℕ) (words others : List (List ℕ)) → AreWords words text → AreWords others text → words ≡ others }
{}

/// The reader answers a first word, and what stands behind it, exactly where they stand so; and none exactly where a text is
/// blanks.
pub fn a_first_word_is_read_where_it_stands()
    ensures found { (text word rest : List ℕ) → first_word text ≡ Some (word, rest) → IsFirstWord word rest text }
    ensures read { (text word rest : List ℕ) → IsFirstWord word rest text → first_word text ≡ Some (word, rest) }
    ensures none_found { (text : List ℕ) → first_word text ≡ None → AreBlanks text }
    ensures none_read { (text : List ℕ) → AreBlanks text → first_word text ≡ None }
{}

/// The reader answers a command exactly where a text is this one, and a fault exactly where the text has it.
pub fn one_command_is_read_where_it_stands()
    ensures found { (text : List ℕ) (command : Command) → command_in text ≡ Ok command → IsOneCommand text command }
    ensures read { (text : List ℕ) (command : Command) → IsOneCommand text command → command_in text ≡ Ok command }
    ensures refused { (text : List ℕ) (fault : LineFault) → command_in text ≡ Err fault → HasCommandFault text fault }
    ensures missed { (text : List ℕ) (fault : LineFault) → HasCommandFault text fault → command_in text ≡ Err fault }
{}

/// The reader finds a quote that nothing closes exactly where a text is no words.
pub fn a_quote_is_open_where_there_are_no_words()
    ensures found { (text : List ℕ) → is_open false text ≡ true → (words : List (List ℕ)) → AreWords words text → ⊥ }
    ensures read { (text : List ℕ) → ((words : List (List ℕ)) → AreWords words text → ⊥) → is_open false text ≡ true }
{}

/// The reader takes a value behind a keyword exactly where it stands in brackets there.
pub fn a_value_stands_in_brackets()
    ensures found { (keyword value word : List ℕ) → bracketed keyword word ≡ Some value → IsBracketed keyword value word }
    ensures read { (keyword value word : List ℕ) → IsBracketed keyword value word → bracketed keyword word ≡ Some value }
{}

/// The reader answers a label exactly where the word is one, and the fault Name exactly where it is none.
pub fn labels_are_read_where_they_stand()
    ensures found { (word label : List ℕ) → label_in word ≡ Ok label → IsLabelWord label word }
    ensures read { (word label : List ℕ) → IsLabelWord label word → label_in word ≡ Ok label }
    ensures refused { (word : List ℕ) (fault : LineFault) → label_in word ≡ Err fault → IsMissed Name (λ label. IsLabelWord label word) fault }
    ensures missed { (word : List ℕ) (fault : LineFault) → IsMissed Name (λ label. IsLabelWord label word) fault → label_in word ≡ Err fault }
{}

/// The reader answers a name exactly where the word is one, and the fault Name exactly where it is none.
pub fn names_are_read_where_they_stand()
    ensures found { (width : ℕ) (word name : List ℕ) → name_in width word ≡ Ok name → IsNameWord width name word }
    ensures read { (width : ℕ) (word name : List ℕ) → IsNameWord width name word → name_in width word ≡ Ok name }
    ensures refused { (width : ℕ) (word : List ℕ) (fault : LineFault) → name_in width word ≡ Err fault → IsMissed Name (λ name. IsNameWord width name word) fault }
    ensures missed { (width : ℕ) (word : List ℕ) (fault : LineFault) → IsMissed Name (λ name. IsNameWord width name word) fault → name_in width word ≡ Err fault }
{}

/// The same of names that may be blank.
pub fn names_or_blanks_are_read_where_they_stand()
    ensures found { (word name : List ℕ) → name_or_blank_in word ≡ Ok name → IsNameOrBlank name word }
    ensures read { (word name : List ℕ) → IsNameOrBlank name word → name_or_blank_in word ≡ Ok name }
    ensures refused { (word : List ℕ) (fault : LineFault) → name_or_blank_in word ≡ Err fault → IsMissed Name (λ name. IsNameOrBlank name word) fault }
    ensures missed { (word : List ℕ) (fault : LineFault) → IsMissed Name (λ name. IsNameOrBlank name word) fault → name_or_blank_in word ≡ Err fault }
{}

/// The reader answers a text exactly where the word is this text in quotes, and the fault Form exactly where it is none.
pub fn texts_are_read_where_they_stand()
    ensures found { (word text : List ℕ) → text_in word ≡ Ok text → word ≡ quoted text }
    ensures read { (word text : List ℕ) → word ≡ quoted text → text_in word ≡ Ok text }
    ensures refused { (word : List ℕ) (fault : LineFault) → text_in word ≡ Err fault → IsMissed Form (λ text. word ≡ quoted text) fault }
    ensures missed { (word : List ℕ) (fault : LineFault) → IsMissed Form (λ text. word ≡ quoted text) fault → text_in word ≡ Err fault }
{}

/// The same of fields that a text in quotes fills.
pub fn fields_are_read_where_they_stand()
    ensures found { (width pad : ℕ) (word field : List ℕ) → field_in width pad word ≡ Ok field → IsField width pad field word }
    ensures read { (width pad : ℕ) (word field : List ℕ) → IsField width pad field word → field_in width pad word ≡ Ok field }
    ensures refused { (width pad : ℕ) (word : List ℕ) (fault : LineFault) → field_in width pad word ≡ Err fault → IsMissed Form (λ field. IsField width pad field word) fault }
    ensures missed { (width pad : ℕ) (word : List ℕ) (fault : LineFault) → IsMissed Form (λ field. IsField width pad field word) fault → field_in width pad word ≡ Err fault }
{}

/// The reader of numbers in a range answers a number exactly where the text is one, and a fault exactly where it is the
/// text's: Form of what is no number, else that of the range.
pub fn numbers_are_read_where_they_stand()
    ensures found { (beyond : LineFault) (low high n : ℕ) (text : List ℕ) → rank beyond < 20 → ranged beyond low high text ≡ Ok n → IsNumber low high n text }
    ensures read { (beyond : LineFault) (low high n : ℕ) (text : List ℕ) → rank beyond < 20 → IsNumber low high n text → ranged beyond low high text ≡ Ok n }
    ensures refused { (beyond fault : LineFault) (low high : ℕ) (text : List ℕ) → rank beyond < 20 → ranged beyond low high text ≡ Err fault → HasNumberFault beyond (λ n. IsNumber low high n text) text fault }
    ensures missed { (beyond fault : LineFault) (low high : ℕ) (text : List ℕ) → rank beyond < 20 → HasNumberFault beyond (λ n. IsNumber low high n text) text fault → ranged beyond low high text ≡ Err fault }
{}

/// The same of numbers of 32 bits with a sign.
pub fn signed_numbers_are_read_where_they_stand()
    ensures found { (n : ℤ) (text : List ℕ) → signed_number text ≡ Ok n → IsSigned n text }
    ensures read { (n : ℤ) (text : List ℕ) → IsSigned n text → signed_number text ≡ Ok n }
    ensures refused { (fault : LineFault) (text : List ℕ) → signed_number text ≡ Err fault → HasNumberFault Number (λ n. IsSigned n text) text fault }
    ensures missed { (fault : LineFault) (text : List ℕ) → HasNumberFault Number (λ n. IsSigned n text) text fault → signed_number text ≡ Err fault }
{}

/// The test of options passes exactly where the words are those of allowed options, no two of one group.
pub fn options_are_those_of_the_words()
    ensures found { (allowed : List LineOption) (words : List (List ℕ)) → are_options allowed words ≡ true → AreOptions allowed words }
    ensures read { (allowed : List LineOption) (words : List (List ℕ)) → AreOptions allowed words → are_options allowed words ≡ true }
    ensures says_found { (option : LineOption) (words : List (List ℕ)) → says option words ≡ true → Says option words }
    ensures says_read { (option : LineOption) (words : List (List ℕ)) → Says option words → says option words ≡ true }
{}

/// The reader takes an option's value exactly where the words give it, of which options have one at most.
pub fn an_option_has_the_value_that_its_word_gives()
    ensures found { (option : LineOption) (value : List ℕ) (words : List (List ℕ)) → value_of option words ≡ Some value → HasValue option value words }
    ensures read { (allowed : List LineOption) (words : List (List ℕ)) (option : LineOption) (value : List ℕ) → AreOptions allowed words → has_value option ≡ true → HasValue option value words → value_of option words ≡ Some value }
    ensures none_found { (option : LineOption) (value : List ℕ) (words : List (List ℕ)) → value_of option words ≡ None → HasValue option value words → ⊥ }
    ensures none_read { (option : LineOption) (words : List (List ℕ)) → ((value : List ℕ) → HasValue option value words → ⊥) → value_of option words ≡ None }
{}

/// The reader of bodies answers a body exactly where the word is one, within what is left of the limit of all bodies, and
/// the first fault exactly where it is none.
pub fn bodies_are_read_where_they_stand()
    ensures found { (left : ℕ) (word : List ℕ) (body : Body) → body_in left word ≡ Ok body → IsBodyWord left body word }
    ensures read { (left : ℕ) (word : List ℕ) (body : Body) → IsBodyWord left body word → body_in left word ≡ Ok body }
    ensures refused { (left : ℕ) (word : List ℕ) (fault : LineFault) → body_in left word ≡ Err fault → IsTold (λ f. HasBodyFault left word f) fault }
    ensures missed { (left : ℕ) (word : List ℕ) (fault : LineFault) → IsTold (λ f. HasBodyFault left word f) fault → body_in left word ≡ Err fault }
{}

/// The reader of an open's options answers what the words say, and the fault Form exactly where they are no such options.
pub fn options_of_opens_are_read()
    ensures found { (words : List (List ℕ)) (options : Open) → open_options words ≡ Ok options → AreOpenOptions words options }
    ensures read { (words : List (List ℕ)) (options : Open) → AreOpenOptions words options → open_options words ≡ Ok options }
    ensures refused { (words : List (List ℕ)) (fault : LineFault) → open_options words ≡ Err fault → IsTold (λ f. HasOpenFault words f) fault }
    ensures missed { (words : List (List ℕ)) (fault : LineFault) → IsTold (λ f. HasOpenFault words f) fault → open_options words ≡ Err fault }
{}

/// The reader of a put's options answers what the words say, and exactly the first fault that they have.
pub fn options_of_puts_are_read()
    ensures found { (words : List (List ℕ)) (options : PutOptions) → put_options words ≡ Ok options → ArePutOptions words options }
    ensures read { (words : List (List ℕ)) (options : PutOptions) → ArePutOptions words options → put_options words ≡ Ok options }
    ensures refused { (words : List (List ℕ)) (fault : LineFault) → put_options words ≡ Err fault → IsTold (λ f. HasPutFault words f) fault }
    ensures missed { (words : List (List ℕ)) (fault : LineFault) → IsTold (λ f. HasPutFault words f) fault → put_options words ≡ Err fault }
{}

/// The reader of a get's options answers what the words say, and exactly the first fault that they have.
pub fn options_of_gets_are_read()
    ensures found { (words : List (List ℕ)) (options : GetOptions) → get_options words ≡ Ok options → AreGetOptions words options }
    ensures read { (words : List (List ℕ)) (options : GetOptions) → AreGetOptions words options → get_options words ≡ Ok options }
    ensures refused { (words : List (List ℕ)) (fault : LineFault) → get_options words ≡ Err fault → IsTold (λ f. HasGetFault words f) fault }
    ensures missed { (words : List (List ℕ)) (fault : LineFault) → IsTold (λ f. HasGetFault words f) fault → get_options words ≡ Err fault }
{}

/// The reader of script lines answers a line exactly where the text is this line, where so many bytes are left of the limit
/// of all bodies; a text is one line at most.
pub fn a_script_line_is_read_where_it_is_written()
    ensures found { (left : ℕ) (text : List ℕ) (line : ScriptLine) → script_line left text ≡ Ok line → IsScriptLine left line text }
    ensures read { (left : ℕ) (text : List ℕ) (line : ScriptLine) → IsScriptLine left line text → script_line left text ≡ Ok line }
    ensures one_line { (left : ℕ) (text : List ℕ) (line other : ScriptLine) → IsScriptLine left line text → IsScriptLine left other text → line ≡ other }
{}

/// The reader of script lines answers a fault exactly where it is the line's: one that a part of it has, where none that a
/// part has stands before it.
pub fn a_script_fault_is_told()
    ensures found { (left : ℕ) (text : List ℕ) (fault : LineFault) → script_line left text ≡ Err fault → IsScriptFault left text fault }
    ensures read { (left : ℕ) (text : List ℕ) (fault : LineFault) → IsScriptFault left text fault → script_line left text ≡ Err fault }
{}

/// Each text is a line or has a fault, never both, and has one fault at most that is told.
pub fn a_text_is_a_script_line_or_has_a_fault()
    ensures either { (left : ℕ) (text : List ℕ) → ((line : ScriptLine) × IsScriptLine left line text) ⊎ ((fault : LineFault) × IsScriptFault left text fault) }
    ensures never_both { (left : ℕ) (text : List ℕ) (line : ScriptLine) (fault : LineFault) → IsScriptLine left line text → IsScriptFault left text fault → ⊥ }
    ensures one_fault { (left : ℕ) (text : List ℕ) (fault other : LineFault) → IsScriptFault left text fault → IsScriptFault left text other → fault ≡ other }
{}
