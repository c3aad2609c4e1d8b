// Environments: the value of each column id, in 256 words.
ghost use Rattle.std.specs.Prelude.{◌≡◌, length};
ghost use Rattle.algebra.specs.Plans.{bind};
ghost use Rattle.reporting.specs.Rows.{env_of};

// The value of a column: the row's, where its id is one of the row's, else the one around it.
pub(crate) fn column(ids: &[u8], row: &[u64], env: &[u64], id: u8) -> u64
    requires ids_len { length ids.now ≡ length row.now }
    requires env_len { length env.now ≡ 256 }
    ensures { result ≡ bind ids.now row.now (env_of env.now) id }
{
    for (i, &own) in ids.iter().enumerate() {
        if own == id {
            return row[i];
        }
    }
    let at = id as usize;
    env[at]
}

// Binds the row's cells to the columns' ids, the last column first.
pub(crate) fn bind_row(env: &mut [u64], ids: &[u8], row: &[u64])
    requires ids_len { length ids.now ≡ length row.now }
    requires env_len { length env.old ≡ 256 }
    ensures { env_of env.new ≡ bind ids.now row.now (env_of env.old) }
{
    for i in (0..row.len()).rev() {
        env[ids[i] as usize] = row[i];
    }
}

// The environment inside a row: a copy of env with the row's columns bound.
pub(crate) fn inner_env(copy: &mut [u64], env: &[u64], ids: &[u8], row: &[u64])
    requires { (length ids.now ≡ length row.now) × (length env.now ≡ 256) × (length copy.old ≡ 256) }
    ensures { env_of copy.new ≡ bind ids.now row.now (env_of env.now) }
{
    copy.copy_from_slice(env);
    bind_row(copy, ids, row);
}
