// The laws of trees, for the layers above.
ghost use Rattle.obeying.specs.TreeLaws.{TreeLaws};

// Obeying is kept by copies and parts of a tree, whatever the order.
pub fn trees_keep_their_laws()
    ensures laws { TreeLaws }
{}
