//! Laws of the definitions. The functions do nothing: each stands for its contract.

ghost use Rattle.std.specs.Prelude.{ℕ, ◌+◌, ◌<◌, ◌≡◌, ◌^◌, ◌++◌, ◌∷◌, [], All, IfOk, List};
ghost use Rattle.std.specs.Prelude.{Ok, Option, Some, String, decimal, false, length, map};
ghost use Rattle.std.specs.Prelude.{option_and_then, string_bytes};
ghost use Rattle.std.specs.List.{range_with_len};
ghost use Rattle.std.specs.declared.alloc.Global.{Global};
ghost use Rattle.fdb_log_reader.specs.declared.part_text.Above.{Above};
ghost use Rattle.fdb_log_reader.specs.declared.line_reader.LineReader.{LineReader};
ghost use Rattle.fdb_log_reader.specs.ByKey.{IsReadByKey};
ghost use Rattle.fdb_log_reader.specs.Columns.{KeyColumn};
ghost use Rattle.fdb_log_reader.specs.LineReader.{AreMore, lines_on};
ghost use Rattle.fdb_log_reader.specs.Members.{whole};
ghost use Rattle.fdb_log_reader.specs.Named.{HaveOneNumber, named_if};
ghost use Rattle.fdb_log_reader.specs.ReadLine.{are_full, lines_read, member_in, names_behind};
ghost use Rattle.fdb_log_reader.specs.ReadLine.{no_names, text_says, IsNumbered, LineNames};
ghost use Rattle.fdb_log_reader.specs.Reading.{lines_in, reading_with, EndsALine, Reading};
ghost use Rattle.fdb_log_reader.specs.Split.{key_of_line, part_of_key, placed_lines, Placed};

/// Behind any lines the keys are still in the member that they were in.
pub fn keys_stay_in_one_member()
    ensures { (shown : List (List ℕ)) (names : LineNames) (lines : List (List ℕ))
        → member_in (names_behind shown names lines) ≡ member_in names }
{}

/// Names keep their numbers: whatever lines are read, names are only added at the end.
pub fn names_keep_their_numbers()
    ensures { (shown : List (List ℕ)) (names : LineNames) (lines : List (List ℕ))
        → AreMore names (names_behind shown names lines) }
{}

/// No two clients of a text have one name, and no two keys.
pub fn each_name_has_one_number()
    ensures { (shown : List (List ℕ)) (key : Option (List ℕ)) (lines : List (List ℕ))
        → HaveOneNumber (names_behind shown (no_names key) lines) }
{}

/// The numbers that lines have are those of names that are known once the lines are read.
pub fn numbers_are_those_of_names()
    ensures { (shown : List (List ℕ)) (names : LineNames) (lines : List (List ℕ))
        → All (λ read. IfOk read (IsNumbered (names_behind shown names lines)))
        (lines_read shown names lines) }
{}

/// Whatever lines stand above some lines, these say the same, but for how clients and keys are
/// numbered, and the same of them are refused, as long as there is room for names.
pub fn what_lines_say_is_theirs_alone()
    ensures { (shown : List (List ℕ)) (names others : LineNames) (lines : List (List ℕ))
        → member_in names ≡ member_in others
        → are_full (names_behind shown names lines) ≡ false
        → are_full (names_behind shown others lines) ≡ false
        → map (named_if (names_behind shown names lines)) (lines_read shown names lines)
        ≡ map (named_if (names_behind shown others lines)) (lines_read shown others lines) }
{}

/// Whatever has been read, a space behind it is of one line: the one that has not ended, or the next.
pub fn a_space_more_is_of_one_line()
    ensures { (reader : LineReader) → length (lines_on reader (32 ∷ [])) ≡ 1 }
{}

/// Where a text ends with the end of a line, whatever comes behind it is read as lines of its own.
pub fn what_follows_an_ended_line_is_apart()
    ensures { (text more : List ℕ) → EndsALine text
        → lines_in (text ++ more) ≡ lines_in text ++ lines_in more }
{}

/// Decimal digits that are shown of a line are read as their number.
pub fn digits_are_read_as_their_number()
    ensures { (text : String Global) (number : ℕ) → number < 2 ^ 64
        → string_bytes text ≡ decimal number
        → option_and_then whole (text_says (Some text)) ≡ Some number }
{}

/// A log that is cut into parts has each of its lines once, in order, each with where it stood, and
/// each is in one of the parts. All lines of a key are in the same part.
pub fn each_line_is_of_one_part()
    ensures bytes { (member : List ℕ) (parts : ℕ) (above after : Above) (lines : List (List ℕ))
        (placed : List Placed) → placed_lines member parts above lines ≡ Ok (placed, after)
        → map (λ (it : Placed). it.bytes) placed ≡ lines }
    ensures lines { (member : List ℕ) (parts : ℕ) (above after : Above) (lines : List (List ℕ))
        (placed : List Placed) → placed_lines member parts above lines ≡ Ok (placed, after)
        → map (λ (it : Placed). it.line) placed
        ≡ range_with_len (above.count + 1) (length lines) }
    ensures parts { (member : List ℕ) (parts : ℕ) (above after : Above) (lines : List (List ℕ))
        (placed : List Placed) → 0 < parts
        → placed_lines member parts above lines ≡ Ok (placed, after)
        → All (λ (it : Placed). it.part < parts) placed }
    ensures keys { (member : List ℕ) (parts : ℕ) (above after : Above) (lines : List (List ℕ))
        (placed : List Placed) → placed_lines member parts above lines ≡ Ok (placed, after)
        → All (λ (it : Placed). it.part ≡ part_of_key parts (key_of_line member it.bytes)) placed }
{}

/// A log that is read with the keys of its lines has at least one line. Its clients and keys are
/// the numbers of their names, and each name has one number. All lines have times or none has, and
/// no line has learnt.
pub fn what_is_read_by_key_is_numbered_by_names()
    ensures { (member : List ℕ) (shown : List (List ℕ)) (number : Option (List ℕ))
        (bytes : List ℕ) (reading : Reading)
        → reading_with (Some member) shown number bytes ≡ Ok reading
        → (keys : KeyColumn) × IsReadByKey reading keys × (0 < length reading.log.lines) }
{}
