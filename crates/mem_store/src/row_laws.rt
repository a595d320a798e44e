// What follows from the definitions alone.
ghost use Rattle.mem_store.specs.{Answering.RowsAnswer, Serving.ServicesKeepRows, Staying.RowsStay};

use store_laws::{bodies_stay, services_keep_facts, steps_keep_facts};

/// What a state says of a GUID is what the rows of its lists say.
pub fn rows_answer()
    ensures { RowsAnswer }
{}

/// The rows of entries are the same behind another body, where one that is no descriptor changes, and where the store moves.
pub fn rows_stay()
    ensures { RowsStay }
{
    bodies_stay();
}

/// The services leave the rows of a store's lists as they are; a call that installs or registers puts its own behind them, and a reinstall one in the
/// place of another.
pub fn services_keep_rows()
    ensures { ServicesKeepRows }
{
    bodies_stay();
    services_keep_facts();
    steps_keep_facts();
}
