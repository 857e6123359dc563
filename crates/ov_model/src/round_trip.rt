// A law of CSV.
ghost use Rattle.std.specs.Prelude.{◌≡◌, ◌≤◌, List, Ok, length};
ghost use Rattle.std.specs.List.{All};
ghost use Rattle.ov_value.specs.Shapes.{IsSound, Shape};
ghost use Rattle.ov_value.specs.Spelling.{IsRow, row_spelling};
ghost use Rattle.ov_model.specs.Book.{Row};
ghost use Rattle.ov_model.specs.Csv.{rows_of, text_of};

/// The text of rows is read as these rows, where the rows are of the schema and short enough to be kept, and the text is no
/// longer than a file may be. So a checkout into a file loses nothing.
pub fn what_is_written_reads_back()
    ensures { (schema : Shape) (rows : List Row) → IsSound schema → All (IsRow schema) rows
        → All (λ row. length (row_spelling row).bytes ≤ 65536) rows → length (text_of schema rows) ≤ 67108864
        → rows_of schema (text_of schema rows) ≡ Ok rows }
{}
