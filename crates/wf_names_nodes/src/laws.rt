// What tables answer is what declarations say. The law is the contract of a function that does nothing.

ghost use Rattle.wf_names_nodes.specs.Declaring.{StandsByTables};

/// With tables that tell a package and a scope, what is looked up there is what the declarations say.
pub fn tables_stand_for_declarations()
    ensures { StandsByTables }
{}
