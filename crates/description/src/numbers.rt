// How many numbers there are. Document 01, 'Description'.

// The numbers of the array, before those of the layers.
pub const HEAD_LENGTH: usize = 8;

// The numbers of a layer.
pub const RECORD_LENGTH: usize = 24;

// The slots of a layer: conv, mixin, layer1x1, head1x1, the sites 0 to 7.
pub const SLOTS: usize = 12;

// Weights and histories are no more than this many.
pub const MOST: usize = 1_048_576;
