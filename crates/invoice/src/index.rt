// The index of an invoice's fields: three numbers for each.
ghost use Rattle.std.specs.Prelude.{List, ◌≡◌, ◌*◌, ◌≤◌, length};
ghost use Rattle.std.proofs.lemmas.List.Edits.{sets};
ghost use Rattle.field.specs.Fields.{fields_in, numbers_of};
ghost use Rattle.field.specs.declared.Field.{Field};

// Puts the three numbers of each field at the front of `index`.
pub(crate) fn put(middle: &[u8], index: &mut [u64])
    requires middle_value { (fields : List Field) × (fields_in middle.now ≡ Ok fields) × (3 * length fields ≤ length index.old) }
    requires middle_len_bound { length middle.now ≤ 4096 }
    ensures { (fields : List Field) → fields_in middle.now ≡ Ok fields → index.new ≡ sets index.old 0 (numbers_of fields) }
{
    let mut at: usize = 0;
    let mut row: usize = 0;
    while at < middle.len() {
        let Ok(f) = field::field_at(at, middle) else {
            return;
        };
        index[row * 3] = f.kind as u64;
        index[row * 3 + 1] = f.start as u64;
        index[row * 3 + 2] = f.size as u64;
        at += 3 + f.size;
        row += 1;
    }
}
