// What a swap leaves of every voxel (01-scope.md, "Voxels and byte order": it turns round "each swap unit of the
// image"). There is no code here; the theorem of proofs/Theorems.antt speaks of the definitions that `byteswap`'s and
// `voxel`'s promises cite.
#![tactic(auto)]
