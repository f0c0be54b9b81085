// That reading has an answer. Each law is the contract of a function that does nothing.

ghost use Rattle.wf_parse_laws.specs.ReadingLaws.{BytesHaveTokens, TreesHaveNodes, FilesAreReadOrRefused};

/// All bytes of a file are tokens, or there is a first place at which no token can be read.
pub fn bytes_have_tokens()
    ensures { BytesHaveTokens }
{}

/// Each list of declarations is that of a package: every parsed tree has nodes.
pub fn trees_have_nodes()
    ensures { TreesHaveNodes }
{}

/// Files of whatever number and length are read to a package, or refused: where no rule refuses them there is a tree.
pub fn files_are_read_or_refused()
    ensures { FilesAreReadOrRefused }
{}
