//! A law of the format: what is printed can be read again.

ghost use Rattle.std.specs.Prelude.{◌≡◌, Some};
ghost use Rattle.serde_json.specs.Data.{string};
ghost use Rattle.fdb_history.specs.Text.{metadata_text};
ghost use Rattle.fdb_script.specs.Reading.{metadata_of};

/// A metadata version that is printed is read as the same ten bytes: a script that reports what a
/// run printed reports what the run had.
pub fn printed_metadata_is_read(metadata: [u8; 10])
    ensures { metadata_of (string (metadata_text (Some metadata))) ≡ Some metadata }
{}
