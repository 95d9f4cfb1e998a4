// Laws of tables that lines tell.
ghost use Rattle.std.specs.Prelude.{◌≡◌, ℕ};
ghost use Rattle.cat_code.specs.declared.code.Tables.{Tables};
ghost use Rattle.cat_image.specs.declared.tables.ImageTables.{ImageTables};
ghost use Rattle.cat_verify_tables.specs.TableWords.{AreTablesOf};
ghost use Rattle.cat_verify_tables.specs.WrongTables.{IsBadTable};

/// Where no line of an image is wrong, its words are those of one table.
pub fn lines_tell_one_table()
    ensures { (image : ImageTables) (tables : Tables) (others : Tables) → AreTablesOf image tables
        → AreTablesOf image others → ((n : ℕ) → IsBadTable image n → ⊥) → tables ≡ others }
{}
