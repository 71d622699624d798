//! Laws of tables. Each is the contract of a function that does nothing.

ghost use Rattle.sudoers_line_rows.specs.declared.rows.Tables.{Tables as TablesOf};
ghost use Rattle.sudoers_line_rows.specs.Tables.{TablesHaveGrown};

/// Tables have grown by nothing from themselves, and on from those that have grown.
pub fn growth_goes_on()
    ensures same { (t : TablesOf) → TablesHaveGrown t t }
    ensures on { (t u v : TablesOf) → TablesHaveGrown t u → TablesHaveGrown u v → TablesHaveGrown t v }
{}
