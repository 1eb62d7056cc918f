//! The permissions of a key.

ghost use Rattle.std.specs.Prelude.{◌≡◌, map};
ghost use Rattle.warg_record.specs.Record.{Package, Operator};
ghost use Rattle.warg_log.specs.Permissions.{has_permission, only, union, without, set_of, all_of};

use warg_record::LogPermission;

/// Which permissions a key holds, of both kinds of log.
#[derive(Clone, Copy, Debug, PartialEq, Eq)]
pub struct PermissionSet {
    release: bool,
    yank: bool,
    commit: bool,
    define_namespace: bool,
    import_namespace: bool,
}

impl PermissionSet {
    /// The permission with this text alone.
    fn only(permission: &str) -> Self
        ensures { result ≡ only permission.now }
    {
        PermissionSet {
            release: permission == "release",
            yank: permission == "yank",
            commit: permission == "commit",
            define_namespace: permission == "defineNamespace",
            import_namespace: permission == "importNamespace",
        }
    }

    /// These permissions.
    pub fn of<P: LogPermission>(permissions: &[P]) -> Self
        ensures { result ≡ set_of (map P.text_of permissions.now) }
    {
        let mut set = PermissionSet {
            release: false,
            yank: false,
            commit: false,
            define_namespace: false,
            import_namespace: false,
        };
        for permission in permissions {
            set = set.union(PermissionSet::only(permission.as_str()));
        }
        set
    }

    /// All permissions of packages' logs.
    pub fn all_of_package() -> Self
        ensures { result ≡ all_of Package }
    {
        PermissionSet {
            release: true,
            yank: true,
            commit: false,
            define_namespace: false,
            import_namespace: false,
        }
    }

    /// All permissions of operators' logs.
    pub fn all_of_operator() -> Self
        ensures { result ≡ all_of Operator }
    {
        PermissionSet {
            release: false,
            yank: false,
            commit: true,
            define_namespace: true,
            import_namespace: true,
        }
    }

    /// Whether the permission with this text is in the set.
    pub fn contains(self, permission: &str) -> bool
        ensures { result ≡ has_permission self permission.now }
    {
        match permission {
            "release" => self.release,
            "yank" => self.yank,
            "commit" => self.commit,
            "defineNamespace" => self.define_namespace,
            "importNamespace" => self.import_namespace,
            _ => false,
        }
    }

    /// The permissions of both sets.
    pub fn union(self, other: PermissionSet) -> Self
        ensures { result ≡ union self other }
    {
        PermissionSet {
            release: self.release || other.release,
            yank: self.yank || other.yank,
            commit: self.commit || other.commit,
            define_namespace: self.define_namespace || other.define_namespace,
            import_namespace: self.import_namespace || other.import_namespace,
        }
    }

    /// The permissions that the other set has not.
    pub fn without(self, other: PermissionSet) -> Self
        ensures { result ≡ without self other }
    {
        PermissionSet {
            release: self.release && !other.release,
            yank: self.yank && !other.yank,
            commit: self.commit && !other.commit,
            define_namespace: self.define_namespace && !other.define_namespace,
            import_namespace: self.import_namespace && !other.import_namespace,
        }
    }
}
