//! What `demo` prints: `world.py` wrote this file.

/// Seeds and counts, with the lines that are printed for them.
pub const PRINTED: &[(&str, &str, &str)] = &[
    (
        "1",
        "5",
        "entries 5 left 1\n\
         lock 1618 bd503e7b38f038c31c7aa0e5ee5320d4be8ce896f9c077c22bf9c824cc382baa\n\
         bundle 1834 8b6c320ab4b055568c076ee72ed490c879c19af7c2ae8d7df321c96542a40bf6\n",
    ),
    (
        "0",
        "1",
        "entries 1 left 1\n\
         lock 279 8df8c1fbd8945b85ea199b4b5f4559e40af83039d172d8241290a51cf3d18cf2\n\
         bundle 253 fec34619a472821c1ddd10c363e12055b7515cd2d596d5bf978c54cc0be557d4\n",
    ),
    (
        "18446744073709551615",
        "2",
        "entries 2 left 1\n\
         lock 569 bd847e22df423347ea549b0c443bbe70a683a2bd3baac81124268097cfac467e\n\
         bundle 575 8ea4d164a9430ecf9e723c28e94dd61b8677fa3d92ac1dc98b8b374c88111b28\n",
    ),
    (
        "7",
        "3",
        "entries 3 left 1\n\
         lock 860 998fe0ee5202653bb0ea3a5f5dc4563e67ae804532bbf5ee0ad83104f8f2cfab\n\
         bundle 898 44fd340445d480e9c69b25af3ea0c92f7cf0b5d114dbcbfd8bcdc60b7d23096f\n",
    ),
    (
        "2",
        "40",
        "entries 40 left 1\n\
         lock 13487 e4bdab2bb6686000e841805849f3bf6f15ff2ca4a55ff461de236416d667e982\n\
         bundle 15849 c611ab3b10044d4a8c7f7b732676eebcb70cada15205ab1fd3963083dd1b27c8\n",
    ),
];
