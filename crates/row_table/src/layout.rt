//! Whether a schema is that of the two tables.

ghost use Rattle.std.specs.Prelude.{◌≡◌, ◌↔◌, true, false, [], ◌∷◌, None, codes, IsTrue, IfOk};
ghost use Rattle.sqlite_value.specs.Keys.{plain};
ghost use Rattle.sqlite_schema.specs.declared.schema.Column.{Column};
ghost use Rattle.sqlite.specs.declared.types.Value.TheVariants.{Null};
ghost use Rattle.sqlite.specs.Collation.TheVariants.{Binary};
ghost use Rattle.row_table.specs.Checking.{HasOurNames, outline};
ghost use Rattle.row_table.specs.Layout.{
  IsPlainTable,
  both_tables,
  layout_table,
  no_schema,
  row_index,
  row_table,
  strict_column,
};

use sqlite_schema::schema::{Column, Index, Kind, Schema, Table};
use sqlite_value::keys::Collation;
use sqlite_value::value::Value;
use std::alloc::{AllocError, Global};

fn is_column(column: &Column, name: &str, kind: Kind) -> bool
    ensures { IsTrue result → column.now ≡ strict_column name.now kind }
{
    column.name.as_slice() == name.as_bytes()
        && column.kind == kind
        && column.is_strict
        && column.not_null
        && matches!(column.default, Value::Null)
        && column.collation == Collation::Binary
}

fn has_no_terms(alloc: Global, table: &Table) -> Result<bool, AllocError>
    ensures { IfOk result (λ b. IsTrue b → (table.now.checks ≡ []) × (table.now.stamps ≡ record { places = []; terms = []; formats = [] })) }
{
    let checks = table.checks.lend(alloc)?;
    let stamps = table.stamps.terms.lend(alloc)?;
    Ok(
        checks.roots.is_empty()
            && stamps.roots.is_empty()
            && table.stamps.places.is_empty()
            && table.stamps.formats.is_empty(),
    )
}

/// Whether the table has no rule beside its columns and keys.
fn is_plain(alloc: Global, table: &Table) -> Result<bool, AllocError>
    ensures { IfOk result (λ b. IsTrue b → IsPlainTable table.now) }
{
    if !has_no_terms(alloc, table)? {
        return Ok(false);
    }
    Ok(
        table.key.is_none()
            && table.references.is_empty()
            && table.computed.is_empty()
            && !table.is_counted,
    )
}

fn are_places(places: &[usize], wanted: &[usize]) -> bool
    ensures { IsTrue result → places.now ≡ wanted.now }
{
    places == wanted
}

fn has_key(table: &Table) -> bool
    ensures { IsTrue result → (table.now.primary ≡ 1 ∷ 2 ∷ []) × ((table.now.uniques ≡ (1 ∷ 2 ∷ []) ∷ []) × (table.now.orders ≡ plain ∷ [])) }
{
    let [key] = table.uniques.as_slice() else {
        return false;
    };
    let [order] = table.orders.as_slice() else {
        return false;
    };
    are_places(table.primary.as_slice(), &[1, 2])
        && are_places(key.as_slice(), &[1, 2])
        && order.digits == 0
}

fn has_no_key(table: &Table) -> bool
    ensures { IsTrue result → (table.now.primary ≡ []) × ((table.now.uniques ≡ []) × (table.now.orders ≡ [])) }
{
    table.primary.is_empty() && table.uniques.is_empty() && table.orders.is_empty()
}

fn is_at(table: &Table, name: &str, tree: u32) -> bool
    ensures { IsTrue result → (table.now.name ≡ name.now) × (table.now.tree ≡ tree) }
{
    table.name.as_slice() == name.as_bytes() && table.tree == tree
}

fn is_version(columns: &[Column]) -> bool
    ensures { IsTrue result → columns.now ≡ strict_column (codes "version") Kind.Integer ∷ [] }
{
    match columns {
        [version] => is_column(version, "version", Kind::Integer),
        _ => false,
    }
}

fn are_texts(columns: &[Column]) -> bool
    ensures { IsTrue result → columns.now ≡ strict_column (codes "kind") Kind.Text ∷ strict_column (codes "name") Kind.Text ∷ strict_column (codes "body") Kind.Text ∷ [] }
{
    match columns {
        [kind, name, body] => is_column(kind, "kind", Kind::Text)
            && is_column(name, "name", Kind::Text)
            && is_column(body, "body", Kind::Text),
        _ => false,
    }
}

fn is_layout(alloc: Global, table: &Table) -> Result<bool, AllocError>
    ensures { IfOk result (λ b. IsTrue b → table.now ≡ layout_table) }
{
    Ok(
        is_plain(alloc, table)?
            && has_no_key(table)
            && is_at(table, "layout", 0)
            && is_version(table.columns.as_slice()),
    )
}

fn is_row_table(alloc: Global, table: &Table) -> Result<bool, AllocError>
    ensures { IfOk result (λ b. IsTrue b → table.now ≡ row_table) }
{
    Ok(
        is_plain(alloc, table)?
            && has_key(table)
            && is_at(table, "row_text", 1)
            && are_texts(table.columns.as_slice()),
    )
}

fn is_row_index(index: &Index) -> bool
    ensures { IsTrue result → index.now ≡ row_index }
{
    index.name.as_slice() == "sqlite_autoindex_row_text_1".as_bytes()
        && index.tree == 2
        && index.table == 1
        && are_places(index.columns.as_slice(), &[1, 2])
        && index.order.digits == 0
        && index.is_unique
}

/// Whether the schema has nothing.
pub(crate) fn is_empty(schema: &Schema) -> bool
    ensures { IsTrue result ↔ (schema.now ≡ no_schema) }
{
    schema.tables.is_empty() && schema.indexes.is_empty() && schema.views.is_empty()
}

/// Whether the schema has just the two tables, made by the very texts.
pub(crate) fn is_ours(alloc: Global, schema: &Schema) -> Result<bool, AllocError>
    ensures { IfOk result (λ b. IsTrue b → schema.now ≡ both_tables) }
{
    let [layout, rows] = schema.tables.as_slice() else {
        return Ok(false);
    };
    let [index] = schema.indexes.as_slice() else {
        return Ok(false);
    };
    Ok(
        schema.views.is_empty()
            && is_row_index(index)
            && is_layout(alloc, layout)?
            && is_row_table(alloc, rows)?,
    )
}

fn is_column_named(column: &Column, name: &str) -> bool
    ensures { IsTrue result ↔ (column.now.name ≡ name.now) }
{
    column.name.as_slice() == name.as_bytes()
}

fn is_table_named(table: &Table, name: &str) -> bool
    ensures { IsTrue result ↔ (table.now.name ≡ name.now) }
{
    table.name.as_slice() == name.as_bytes()
}

fn is_outlined_layout(table: &Table) -> bool
    ensures { outline table.now ≡ outline layout_table → IsTrue result }
{
    let [version] = table.columns.as_slice() else {
        return false;
    };
    is_table_named(table, "layout") && is_column_named(version, "version")
}

fn is_outlined_rows(table: &Table) -> bool
    ensures { outline table.now ≡ outline row_table → IsTrue result }
{
    let [kind, name, body] = table.columns.as_slice() else {
        return false;
    };
    is_table_named(table, "row_text")
        && is_column_named(kind, "kind")
        && is_column_named(name, "name")
        && is_column_named(body, "body")
}

/// Whether the schema has the two tables and no other, with just their columns, by their names.
pub(crate) fn has_our_names(schema: &Schema) -> bool
    ensures { HasOurNames schema.now → IsTrue result }
{
    let [first, second] = schema.tables.as_slice() else {
        return false;
    };
    (is_outlined_layout(first) && is_outlined_rows(second))
        || (is_outlined_rows(first) && is_outlined_layout(second))
}
